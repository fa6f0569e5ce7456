// The ban layer.
use plant::Condition;

// The most bans that a layer may hold.
pub const MAX_BANS: usize = 16;

// The plant below with these bans laid over it: a pair is safe where it is safe below and no ban is true of it.
#[derive(Drop)]
pub struct BanLayer<'p, 'b, P> {
    pub(crate) below: &'p P,
    pub(crate) bans: &'b [Condition],
}
