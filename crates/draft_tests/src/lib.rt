// Tests of bench tables and of drafts over them.
#![tactic(auto)]

#[cfg(test)]
mod tests {
    use bench::{Move, TableFault};
    use draft::{DraftFault, draft};
    use plant::{Plant, Row};
    use refusal::{Layer, Refusal};
    use rules::{Rule, RuledPlant};
    use samples::{DETOUR, rule, step, table_of};
    use std::test::Fail;

    // A rule that stands in the memory before a draft.
    const HELD: Rule = Rule {
        state: 9,
        line: 9,
        prefix: 9,
        value: true,
    };

    #[test]
    fn sizes_come_before_entries(rt: HostRuntime) -> Result<(), Fail> {
        for (bits, lines) in [(0, 1), (9, 1), (1, 0), (1, 5)] {
            let made = table_of(rt.alloc(), bits, lines, &[9], &[])?;
            assert_eq!(rt; made.err(), Some(TableFault::SizeLimits));
        }
        assert_eq!(rt;
            TableFault::SizeLimits.refusal(),
            Refusal::new(4, 0, Layer::Plant)
        );
        Ok(())
    }

    #[test]
    fn moves_are_counted_after_starts(rt: HostRuntime) -> Result<(), Fail> {
        let inside = step(1, 1, 1);
        let cases: [(&[u32], &[Move], usize); 4] = [
            (&[1, 2], &[step(2, 0, 0)], 1),
            (&[1, 0], &[inside, step(2, 0, 0)], 3),
            (&[], &[step(0, 2, 0)], 0),
            (&[0], &[inside, inside, step(0, 0, 2)], 3),
        ];
        for (starts, moves, index) in cases {
            let made = table_of(rt.alloc(), 1, 1, starts, moves)?;
            assert_eq!(rt; made.err(), Some(TableFault::EntryBeyond { index }));
        }
        assert_eq!(rt;
            TableFault::EntryBeyond { index: 3 }.refusal(),
            Refusal::new(12, 3, Layer::Plant)
        );
        Ok(())
    }

    #[test]
    fn a_number_beyond_the_sizes_is_answered_no(rt: HostRuntime) -> Result<(), Fail> {
        let plant = table_of(rt.alloc(), 1, 1, &[1], &[step(1, 1, 0)])??;
        assert_eq!(rt; plant.state_bits(), 1);
        assert_eq!(rt; plant.lines(), 1);
        assert!(rt; plant.is_start(1) && !plant.is_start(0) && !plant.is_start(2));
        assert!(rt;
            plant.is_safe(1, 1)
                && !plant.is_safe(1, 0)
                && !plant.is_safe(2, 1)
                && !plant.is_safe(1, 2)
        );
        assert!(rt; plant.follows(1, 1, 0) && !plant.follows(1, 1, 1) && !plant.follows(1, 1, 2));
        Ok(())
    }

    #[test]
    fn empty_lists_go_through_with_nothing_open(rt: HostRuntime) -> Result<(), Fail> {
        let plant = table_of(rt.alloc(), 1, 1, &[], &[])??;
        let mut rows: [Row; 2] = [7; 2];
        let mut rules = [Rule::default(); 2];
        assert_eq!(rt; draft(&plant, &mut rows, &mut rules), Ok(0));
        assert_eq!(rt; rows, [0, 0]);
        Ok(())
    }

    #[test]
    fn a_start_without_moves_is_lost(rt: HostRuntime) -> Result<(), Fail> {
        let plant = table_of(rt.alloc(), 2, 1, &[3, 2], &[step(0, 0, 0)])??;
        let mut rows: [Row; 4] = [7; 4];
        let mut rules = [HELD; 4];
        let lost = DraftFault::LostStart { state: 2 };
        assert_eq!(rt; draft(&plant, &mut rows, &mut rules), Err(lost));
        assert_eq!(rt; rows, [1, 0, 0, 0]);
        assert_eq!(rt; rules, [HELD; 4]);
        assert_eq!(rt; lost.refusal(), Refusal::new(10, 2, Layer::Draft));
        Ok(())
    }

    #[test]
    fn a_setting_that_may_lead_astray_is_shut(rt: HostRuntime) -> Result<(), Fail> {
        let plant = table_of(rt.alloc(), 2, 1, &[0], &DETOUR)??;
        let mut rows: [Row; 4] = [0; 4];
        let mut rules = [HELD; 5];
        assert_eq!(rt; draft(&plant, &mut rows, &mut rules), Ok(1));
        assert_eq!(rt; rows, [3, 2, 0, 0]);
        assert_eq!(rt; rules, [rule(1, 0, 0, true), HELD, HELD, HELD, HELD]);
        let ruled = RuledPlant {
            plant: &plant,
            rules: &rules[0..1],
        };
        assert!(rt; ruled.fits(0, 0) && ruled.fits(0, 1));
        assert!(rt; !ruled.fits(1, 0) && ruled.fits(1, 1));
        Ok(())
    }

    #[test]
    fn memory_of_a_wrong_length_is_left_alone(rt: HostRuntime) -> Result<(), Fail> {
        let plant = table_of(rt.alloc(), 1, 2, &[0], &[step(0, 0, 0)])??;
        let mut rows: [Row; 3] = [7; 3];
        let mut rules = [Rule::default(); 6];
        let few = DraftFault::RowCount { needed: 2 };
        assert_eq!(rt; draft(&plant, &mut rows[0..1], &mut rules[0..5]), Err(few));
        assert_eq!(rt; draft(&plant, &mut rows, &mut rules), Err(few));
        let short = DraftFault::RulePlaces { needed: 6 };
        assert_eq!(rt;
            draft(&plant, &mut rows[0..2], &mut rules[0..5]),
            Err(short)
        );
        assert_eq!(rt; rows, [7; 3]);
        assert_eq!(rt; few.refusal(), Refusal::new(11, 2, Layer::Draft));
        assert_eq!(rt; short.refusal(), Refusal::new(11, 6, Layer::Draft));
        assert_eq!(rt; draft(&plant, &mut rows[0..2], &mut rules), Ok(2));
        assert_eq!(rt; rows, [1, 0, 7]);
        Ok(())
    }

    #[test]
    fn the_largest_table(rt: HostRuntime) -> Result<(), Fail> {
        // From every state, only setting 15 has a move, back to state 0: four rules a state.
        let heap = rt.alloc();
        let moves = (0..256)
            .map(|state| step(state, 15, 0))
            .collect::<Vec<_>>(heap)?;
        let plant = table_of(heap, 8, 4, &[0, 255], moves.as_slice())??;
        let mut rows: [Row; 256] = [0; 256];
        let mut rules = [Rule::default(); 3840];
        assert_eq!(rt; draft(&plant, &mut rows, &mut rules), Ok(1024));
        assert!(rt; rows.iter().all(|row| *row == 32768));
        assert_eq!(rt; rules[1020], rule(255, 0, 0, true));
        assert_eq!(rt; rules[1023], rule(255, 3, 7, true));
        assert_eq!(rt; rules[1024], Rule::default());
        Ok(())
    }
}
