// Tests of reading plans, at the edges.
#![tactic(auto)]

#[cfg(test)]
mod tests {
    use plan::{Plan, PlanFault};
    use plant::Plant;
    use records::{BytesFault, Kind, Record, record_among};
    use std::process::Abort;
    use std::test::Fail;
    use worked::brake_plan;

    // What reading a plan comes to: it is admitted, or turned away with the fault.
    type Read = Result<(), PlanFault>;

    fn expect<R: Abort + AllocGlobal>(rt: &R, bytes: &[u8], want: Read) {
        assert_eq!(rt; Plan::read(rt.alloc(), bytes).map(|_| ()), want);
    }

    // The same of a plan of these records, one after another, and the end.
    fn expect_records<R: Abort + AllocGlobal>(
        rt: &R,
        records: &[&[u8]],
        want: Read,
    ) -> Result<(), Fail> {
        let mut bytes = Vec::new(rt.alloc());
        for record in records {
            bytes.extend_from_slice(record)?;
        }
        bytes.push(15)?;
        expect(rt, bytes.as_slice(), want);
        Ok(())
    }

    fn cut(offset: usize) -> Read {
        Err(PlanFault::Bytes(BytesFault::Unfinished { offset }))
    }

    // The offset of the record that byte `at` of the brake plan belongs to, or of the next where one ends there.
    fn record_of(at: usize) -> usize {
        let starts = [0, 4, 7, 18, 29, 40, 49, 58];
        starts
            .into_iter()
            .filter(|start| *start <= at)
            .last()
            .unwrap_or(0)
    }

    #[test]
    fn cut_at_every_offset(rt: HostRuntime) {
        let whole = brake_plan();
        assert_eq!(rt; whole.len(), 59);
        for at in 0..59 {
            expect(&rt, &whole[..at], cut(record_of(at)));
        }
        expect(&rt, &whole, Ok(()));
    }

    #[test]
    fn heads(rt: HostRuntime) {
        let cases: [(&[u8], Read); 5] = [
            (&[15], Err(PlanFault::HeadMisplaced { offset: 0 })),
            (
                &[1, 1, 1, 0, 1, 1, 1, 0, 15],
                Err(PlanFault::HeadMisplaced { offset: 4 }),
            ),
            (&[1, 8, 4, 8, 15], Ok(())),
            (
                &[1, 1, 1, 0, 9],
                Err(PlanFault::Bytes(BytesFault::UnknownKind { offset: 4 })),
            ),
            (
                &[1, 1, 1, 0, 15, 0],
                Err(PlanFault::Bytes(BytesFault::AfterEnd { offset: 5 })),
            ),
        ];
        for (bytes, want) in cases {
            expect(&rt, bytes, want);
        }
        for (b, n, m) in [(0, 1, 0), (9, 1, 0), (1, 0, 0), (1, 5, 0), (1, 1, 9)] {
            expect(&rt, &[1, b, n, m, 15], Err(PlanFault::SizeLimits));
        }
    }

    #[test]
    fn letters_values_and_masks(rt: HostRuntime) {
        // One bit, one line, one auxiliary: letters 0, 1 and 2.
        let bad = Err(PlanFault::Malformed { offset: 4 });
        let cases: [(&[u8], Read); 9] = [
            (&[1, 1, 1, 1, 2, 1, 0, 15], bad),
            (&[1, 1, 1, 1, 2, 0, 2, 15], bad),
            (&[1, 1, 1, 1, 3, 1, 0, 0, 0, 0, 0, 0, 0, 0, 0, 15], bad),
            (&[1, 1, 1, 1, 4, 1, 0, 0, 0, 0, 0, 0, 0, 0, 0, 15], bad),
            (&[1, 1, 1, 1, 4, 3, 0, 0, 0, 0, 0, 0, 0, 0, 0, 15], bad),
            (&[1, 1, 1, 1, 4, 2, 0, 0, 0, 0, 0, 0, 0, 0, 0, 15], Ok(())),
            (&[1, 1, 1, 1, 5, 0, 0, 0, 8, 0, 0, 0, 0, 15], bad),
            (&[1, 1, 1, 1, 5, 0, 0, 0, 7, 0, 0, 0, 7, 15], Ok(())),
            (&[1, 1, 1, 1, 5, 0, 0, 0, 0, 0, 0, 0, 8, 15], bad),
        ];
        for (bytes, want) in cases {
            expect(&rt, bytes, want);
        }
    }

    #[test]
    fn a_clause_too_many(rt: HostRuntime) -> Result<(), Fail> {
        let mut bytes = Vec::from_slice(rt.alloc(), &[1, 1, 1, 0])?;
        for _ in 0..96 {
            bytes.extend_from_slice(&[2, 0, 1])?;
        }
        expect_records(&rt, &[bytes.as_slice()], Ok(()))?;
        let too_many = Err(PlanFault::TooManyClauses { offset: 292 });
        expect_records(&rt, &[bytes.as_slice(), &[2, 0, 9]], too_many)
    }

    // A clause of kind 3 or 4 whose masks have letters 0 to 7 only.
    fn clause(kind: u8, letter: u8, value: u8, ones: u8, zeros: u8) -> [u8; 11] {
        [kind, letter, value, 0, 0, 0, ones, 0, 0, 0, zeros]
    }

    #[test]
    fn loop_of_one(rt: HostRuntime) -> Result<(), Fail> {
        let looped = Err(PlanFault::Loop { letter: 2 });
        expect_records(&rt, &[&[1, 1, 1, 1], &clause(4, 2, 1, 0, 4)], looped)
    }

    // Auxiliaries are letters 2, 3 and 4. 3 depends on 4, that on 2, and without the last clause 2 on nothing.
    #[test]
    fn loop_of_three(rt: HostRuntime) -> Result<(), Fail> {
        let head = [1, 1, 1, 3];
        let third = clause(4, 3, 1, 16, 0);
        let fourth = clause(4, 4, 0, 0, 4);
        let second = clause(4, 2, 0, 8, 0);
        expect_records(&rt, &[&head, &third, &fourth], Ok(()))?;
        let looped = Err(PlanFault::Loop { letter: 2 });
        expect_records(&rt, &[&head, &third, &fourth, &second], looped)
    }

    // Two next clauses for bit 0 with opposite values, under these conditions.
    fn expect_two<R: Abort + AllocGlobal>(
        rt: &R,
        first: (u8, u8),
        second: (u8, u8),
        want: Read,
    ) -> Result<(), Fail> {
        let up = clause(3, 0, 1, first.0, first.1);
        let down = clause(3, 0, 0, second.0, second.1);
        expect_records(rt, &[&[1, 1, 1, 0], &up, &down], want)
    }

    #[test]
    fn clashes(rt: HostRuntime) -> Result<(), Fail> {
        // With the line on 1, with it off 0: no clash. Without a condition: a clash.
        expect_two(&rt, (2, 0), (0, 2), Ok(()))?;
        let clash = Err(PlanFault::Clash { offset: 15 });
        expect_two(&rt, (2, 0), (0, 0), clash)?;
        // A letter in both masks: the condition is never true, so nothing clashes with it.
        expect_two(&rt, (2, 2), (0, 0), Ok(()))
    }

    #[test]
    fn clash_across_repeats(rt: HostRuntime) {
        expect(&rt, &[1, 1, 1, 0, 2, 0, 1, 2, 0, 1, 15], Ok(()));
        expect(
            &rt,
            &[1, 1, 1, 0, 2, 0, 1, 2, 0, 1, 2, 0, 0, 15],
            Err(PlanFault::Clash { offset: 10 }),
        );
    }

    // Letters 2 and 3 are auxiliaries; the clause of 3 comes first, and each depends on itself.
    #[test]
    fn the_lowest_loop(rt: HostRuntime) -> Result<(), Fail> {
        let third = clause(4, 3, 1, 8, 0);
        let second = clause(4, 2, 1, 4, 0);
        let looped = Err(PlanFault::Loop { letter: 2 });
        expect_records(&rt, &[&[1, 1, 1, 2], &third, &second], looped)
    }

    // The next clauses at 4 and 15 clash; the auxiliary, letter 2, depends on itself: that comes first.
    #[test]
    fn a_loop_comes_before_a_clash(rt: HostRuntime) -> Result<(), Fail> {
        let up = clause(3, 0, 1, 0, 0);
        let down = clause(3, 0, 0, 0, 0);
        let second = clause(4, 2, 1, 4, 0);
        let looped = Err(PlanFault::Loop { letter: 2 });
        expect_records(&rt, &[&[1, 1, 1, 1], &up, &down, &second], looped)
    }

    // A next clause at 4, start clauses at 15 and 18 that clash, and at 21 a next clause that clashes with the first.
    #[test]
    fn the_lowest_clash(rt: HostRuntime) -> Result<(), Fail> {
        let up = clause(3, 0, 1, 0, 0);
        let starts = [2, 0, 1, 2, 0, 0];
        let down = clause(3, 0, 0, 0, 0);
        let clash = Err(PlanFault::Clash { offset: 18 });
        expect_records(&rt, &[&[1, 1, 1, 0], &up, &starts, &down], clash)
    }

    // The start clauses at 4 and 7 clash; what is wrong with a later record or after the end comes first.
    #[test]
    fn a_clash_is_told_last(rt: HostRuntime) {
        let cases: [(&[u8], PlanFault); 3] = [
            (
                &[1, 1, 1, 0, 2, 0, 1, 2, 0, 0, 2, 1, 0, 15],
                PlanFault::Malformed { offset: 10 },
            ),
            (
                &[1, 1, 1, 0, 2, 0, 1, 2, 0, 0, 15, 0],
                PlanFault::Bytes(BytesFault::AfterEnd { offset: 11 }),
            ),
            (
                &[1, 1, 1, 0, 2, 0, 1, 2, 0, 0, 1, 1, 1, 0, 15],
                PlanFault::HeadMisplaced { offset: 10 },
            ),
        ];
        for (bytes, fault) in cases {
            expect(&rt, bytes, Err(fault));
        }
    }

    #[test]
    fn what_is_not_said_is_free(rt: HostRuntime) -> Result<(), Fail> {
        // One bit, one line, one auxiliary without clauses, and a ban on it: every pair may meet the ban.
        // Nothing forces the bit, so both states follow every pair.
        let plan = Plan::read(rt.alloc(), &[1, 1, 1, 1, 5, 0, 0, 0, 4, 0, 0, 0, 0, 15])?;
        assert!(rt; !plan.is_safe(0, 0) && !plan.is_safe(1, 1));
        assert!(rt; plan.follows(1, 0, 0) && plan.follows(1, 0, 1) && plan.follows(0, 1, 1));
        assert!(rt; plan.is_start(0) && plan.is_start(1) && !plan.is_start(2));
        Ok(())
    }

    // Records of kinds that are a list: the first kind with the code counts.
    #[test]
    fn kinds_of_a_list(rt: HostRuntime) {
        let kinds = [
            Kind { code: 7, body: 2 },
            Kind { code: 9, body: 0 },
            Kind { code: 7, body: 1 },
        ];
        let bytes = [0, 7, 1, 2, 9];
        let found = |kind: u8, offset: usize, end: usize| Ok(Record { offset, kind, end });
        assert_eq!(rt; record_among(&bytes, &kinds, 1), found(7, 1, 4));
        assert_eq!(rt; record_among(&bytes, &kinds, 4), found(9, 4, 5));
        let unknown = BytesFault::UnknownKind { offset: 0 };
        assert_eq!(rt; record_among(&bytes, &kinds, 0), Err(unknown));
        let cut = BytesFault::Unfinished { offset: 1 };
        assert_eq!(rt; record_among(&bytes[..3], &kinds, 1), Err(cut));
        let past = BytesFault::Unfinished { offset: 5 };
        assert_eq!(rt; record_among(&bytes, &kinds, 5), Err(past));
    }
}
