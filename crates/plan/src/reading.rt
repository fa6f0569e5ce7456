// Reading a plan, record by record.
ghost use Rattle.std.specs.Prelude.{◌≡◌, ◌<◌, ◌≤◌, length, false, IfOk, MatchOption, MatchResult};
ghost use Rattle.plan.specs.Admitted.{Admitted};
ghost use Rattle.plan.specs.Items.{byte};
ghost use Rattle.plan.specs.Judging.{clashes_with, earlier, with_clause, judge, judge_record, judge_from, judge_whole, most_clauses};
ghost use Rattle.plan.specs.Held.{parts_of};
ghost use Rattle.plan.specs.Kept.{AsExpected, ReadUp, FirstStorable, HasItem, Spared, Storable, seen_of};
ghost use Rattle.plan.specs.Kinds.{code_for, item_code, said};
ghost use Rattle.plan.specs.Refused.{Exactly, Stores};
ghost use Rattle.plan.specs.Sizes.{sizes_fit};
ghost use Rattle.plan.specs.declared.fault.PlanFault.TheVariants.{Memory};

use crate::clause::some_clash;
use crate::fault::PlanFault;
use crate::item::{Item, item_at};
use crate::kind::{ItemKind, PlanKind};
use crate::loops::first_looping;
use crate::partial::Reading;
use crate::plan::{MAX_CLAUSES, Plan};
use crate::sizes::PlanSizes;
use records::{byte_at, ends_at, record_at};
use std::alloc::Global;

impl Plan {
    // Whether the item is a clause that clashes with one of its kind that was read before.
    fn clashes(&self, item: &Item) -> bool
        ensures { result ≡ clashes_with (parts_of self.now) (code_for item.now) (said item.now) }
    {
        match item {
            Item::Start(clause) => some_clash(self.starts.as_slice(), clause),
            Item::Next(clause) => some_clash(self.nexts.as_slice(), clause),
            Item::Auxiliary(clause) => some_clash(self.auxes.as_slice(), clause),
            Item::Ban(_) => false,
        }
    }
}

impl Reading {
    // Notes whether the item, whose record is at `offset`, is the first that clashes with one before it.
    fn note_clash(&mut self, offset: usize, item: &Item)
        ensures { seen_of self.new ≡ record { parts = parts_of self.old.plan; count = self.old.count; clash_at = earlier self.old.clash (clashes_with (parts_of self.old.plan) (code_for item.now) (said item.now)) offset } }
    {
        if self.clash.is_none() && self.plan.clashes(item) {
            self.clash = Some(offset);
        }
    }

    // Appends the clause or ban to the list of its kind.
    fn append(&mut self, item: Item) -> Result<(), PlanFault>
        ensures { MatchResult result (λ _. (parts_of self.new.plan ≡ with_clause (parts_of self.old.plan) (code_for item) (said item)) × (self.new.count ≡ self.old.count) × (self.new.clash ≡ self.old.clash)) (λ f. (f ≡ Memory) × (self.new.count ≡ self.old.count)) }
    {
        match item {
            Item::Start(clause) => self.plan.starts.push(clause)?,
            Item::Next(clause) => self.plan.nexts.push(clause)?,
            Item::Auxiliary(clause) => self.plan.auxes.push(clause)?,
            Item::Ban(condition) => self.plan.bans.push(condition)?,
        }
        Ok(())
    }

    // One clause or ban: not one too many, in order.
    fn take(&mut self, bytes: &[u8], offset: usize, kind: ItemKind) -> Result<(), PlanFault>
        requires { offset < length bytes.now }
        ensures expected { AsExpected (judge_record bytes.now (seen_of self.old) offset (item_code kind)) (λ _. seen_of self.new) result }
        ensures spared { Spared (Storable (seen_of self.old) bytes.now offset (item_code kind)) result }
    {
        if self.count >= MAX_CLAUSES {
            return Err(PlanFault::TooManyClauses { offset });
        }
        let Some(item) = item_at(self.plan.sizes, bytes, offset, kind) else {
            return Err(PlanFault::Malformed { offset });
        };
        self.note_clash(offset, &item);
        self.append(item)?;
        self.count += 1;
        Ok(())
    }

    // The plan, where no auxiliary depends on itself and no two clauses clash.
    fn finish(self) -> Result<Plan, PlanFault>
        ensures expected { AsExpected (judge_whole (seen_of self)) parts_of result }
        ensures spared { Spared ⊥ result }
    {
        let Reading {
            plan,
            count: _,
            clash,
        } = self;
        if let Some(letter) = first_looping(plan.sizes, plan.auxes.as_slice()) {
            return Err(PlanFault::Loop { letter });
        }
        if let Some(offset) = clash {
            return Err(PlanFault::Clash { offset });
        }
        Ok(plan)
    }
}

// Reads the records from `start` on, up to the end record, after which nothing stands.
fn read_records(bytes: &[u8], reading: &mut Reading, start: usize) -> Result<(), PlanFault>
    ensures upto { ReadUp (judge_from (length bytes.now) bytes.now (seen_of reading.old) start) (judge_whole (seen_of reading.new)) result }
    ensures spared { Spared (FirstStorable (seen_of reading.old) bytes.now start) result }
{
    let mut at = start;
    // A cursor and no iterator: only a record says where the next begins, so an iterator would be this loop with its state in a struct.
    loop {
        let found = record_at::<PlanKind>(bytes, at)?;
        let offset = found.offset;
        match found.kind {
            PlanKind::Head => return Err(PlanFault::HeadMisplaced { offset }),
            PlanKind::Item(kind) => reading.take(bytes, offset, kind)?,
            PlanKind::End => {
                ends_at(bytes, found.end)?;
                return Ok(());
            }
        }
        at = found.end;
    }
}

// The sizes in the head, which stands first, where they are within their limits.
fn sizes_at(bytes: &[u8]) -> Option<PlanSizes>
    ensures { MatchOption result (sizes_fit (byte bytes.now 1) (byte bytes.now 2) (byte bytes.now 3) ≡ false) (λ s. (s.pair.state_bits ≡ byte bytes.now 1) × (s.pair.lines ≡ byte bytes.now 2) × (s.auxiliaries ≡ byte bytes.now 3)) }
{
    let state_bits = u32::from(byte_at(bytes, 1));
    let lines = u32::from(byte_at(bytes, 2));
    let auxiliaries = u32::from(byte_at(bytes, 3));
    PlanSizes::new(state_bits, lines, auxiliaries)
}

// Reads a plan: the head, the records up to the end, then loops and clashes.
// Not in `Plan::read` itself: what follows from `judged` would have to be proved at each place that returns.
fn judge_plan(heap: Global, bytes: &[u8]) -> Result<Plan, PlanFault>
    ensures judged { AsExpected (judge bytes.now) parts_of result }
    ensures spared { Spared (HasItem bytes.now) result }
{
    let head = record_at::<PlanKind>(bytes, 0)?;
    let PlanKind::Head = head.kind else {
        return Err(PlanFault::HeadMisplaced { offset: 0 });
    };
    let Some(sizes) = sizes_at(bytes) else {
        return Err(PlanFault::SizeLimits);
    };
    let mut reading = Reading {
        plan: Plan {
            sizes,
            starts: Vec::new(heap),
            nexts: Vec::new(heap),
            auxes: Vec::new(heap),
            bans: Vec::new(heap),
        },
        count: 0,
        clash: None,
    };
    read_records(bytes, &mut reading, head.end)?;
    reading.finish()
}

impl Plan {
    // The plan that the bytes are the records of, where it is in order; else the fault of the bytes.
    #[tactic(auto, using(crate::proofs::Admitting::read_admitted, crate::proofs::Reaching::read_spared, crate::proofs::Reaching::told_so, crate::proofs::Reaching::read_admits, crate::proofs::Reaching::read_refuses))]
    pub fn read(heap: Global, bytes: &[u8]) -> Result<Plan, PlanFault>
        ensures judged { AsExpected (judge bytes.now) parts_of result }
        ensures admitted { IfOk result (λ x. Admitted (parts_of x)) }
        ensures exactly { Exactly bytes.now result }
        ensures spared { Spared (Stores bytes.now) result }
    {
        judge_plan(heap, bytes)
    }
}
