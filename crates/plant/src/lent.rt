// Slices that are lent to a call.

// A lent slice has not the length that is wanted: so many places are needed.
#[derive(Clone, Copy, PartialEq, Eq, Debug)]
pub struct WrongLength {
    pub needed: usize,
}
