// Tests of ban layers.
#![tactic(auto)]

#[cfg(test)]
mod tests {
    use bench::BenchTable;
    use draft::{DraftFault, draft};
    use layers::{BanLayer, LayerFault, MAX_BANS};
    use overlay::overlaid;
    use plant::{Condition, Plant, Row};
    use refusal::{Layer, Refusal};
    use rules::Rule;
    use samples::{step, table_of};
    use std::alloc::Global;
    use std::process::Abort;
    use std::test::Fail;

    // Never state 1 with the line off, and never state 1 with it on, where there are one state bit and one line.
    const NOT_OFF: Condition = Condition { ones: 1, zeros: 2 };

    const NOT_ON: Condition = Condition { ones: 3, zeros: 0 };

    // Letter 2 is past one state bit and one line.
    const BEYOND: Condition = Condition { ones: 0, zeros: 4 };

    // One state bit and one line; the line off leads to state 0, the line on to either state.
    fn small(heap: Global) -> Result<BenchTable, Fail> {
        let moves = [
            step(0, 0, 0),
            step(0, 1, 0),
            step(0, 1, 1),
            step(1, 0, 0),
            step(1, 1, 0),
            step(1, 1, 1),
        ];
        Ok(table_of(heap, 1, 1, &[0], &moves)??)
    }

    // Why the bans are turned away, if they are.
    fn fault<P: Plant>(plant: &P, bans: &[Condition]) -> Option<LayerFault> {
        BanLayer::new(plant, bans).err()
    }

    // Whether two plants answer the same about states and settings below 4.
    fn answer_alike<P: Plant, Q: Plant>(rt: &impl Abort, one: &P, other: &Q) -> Result<(), Fail> {
        assert_eq!(rt; one.state_bits(), other.state_bits());
        assert_eq!(rt; one.lines(), other.lines());
        for state in 0..4 {
            assert_eq!(rt; one.is_start(state), other.is_start(state));
            for setting in 0..4 {
                assert_eq!(rt; one.is_safe(state, setting), other.is_safe(state, setting));
                for next in 0..4 {
                    assert_eq!(rt;
                        one.follows(state, setting, next),
                        other.follows(state, setting, next)
                    );
                }
            }
        }
        Ok(())
    }

    // The rows of the plant with the bans laid over it.
    fn rows<P: Plant>(plant: &P, bans: &[Condition]) -> Result<[Row; 2], Fail> {
        let mut rows: [Row; 2] = [9; 2];
        let mut rules = [Rule::default(); 2];
        draft(&BanLayer::new(plant, bans)?, &mut rows, &mut rules)?;
        Ok(rows)
    }

    #[test]
    fn no_bans_change_nothing(rt: HostRuntime) -> Result<(), Fail> {
        let plant = small(rt.alloc())?;
        answer_alike(&rt, &BanLayer::new(&plant, &[])?, &plant)
    }

    #[test]
    fn sixteen_bans_are_laid(rt: HostRuntime) -> Result<(), Fail> {
        let plant = small(rt.alloc())?;
        assert_eq!(rt; MAX_BANS, 16);
        let bans = [NOT_ON; 16];
        let layer = BanLayer::new(&plant, &bans)?;
        assert!(rt; layer.is_safe(0, 0) && layer.is_safe(0, 1) && layer.is_safe(1, 0));
        assert!(rt; !layer.is_safe(1, 1));
        Ok(())
    }

    #[test]
    fn a_seventeenth_is_refused_first(rt: HostRuntime) -> Result<(), Fail> {
        let plant = small(rt.alloc())?;
        let too_many = LayerFault::TooManyBans;
        assert_eq!(rt; fault(&plant, &[NOT_ON; 17]), Some(too_many));
        assert_eq!(rt; fault(&plant, &[BEYOND; 17]), Some(too_many));
        assert_eq!(rt; too_many.refusal(), Refusal::new(13, 16, Layer::Plant));
        // The plant below is as it was.
        assert!(rt; plant.is_safe(1, 1));
        Ok(())
    }

    #[test]
    fn the_first_ban_beyond_is_told(rt: HostRuntime) -> Result<(), Fail> {
        let plant = small(rt.alloc())?;
        let far = Condition {
            ones: 1 << 31,
            zeros: 0,
        };
        let third = LayerFault::BanBeyond { index: 2 };
        assert_eq!(rt; fault(&plant, &[NOT_ON, NOT_OFF, far, BEYOND]), Some(third));
        assert_eq!(rt;
            fault(&plant, &[BEYOND; 16]),
            Some(LayerFault::BanBeyond { index: 0 })
        );
        assert_eq!(rt; third.refusal(), Refusal::new(12, 2, Layer::Plant));
        Ok(())
    }

    #[test]
    fn a_ban_on_the_last_line(rt: HostRuntime) -> Result<(), Fail> {
        // With 8 state bits and 4 lines, letter 11 is the last line.
        let moves = [step(255, 7, 255), step(255, 8, 0), step(255, 15, 255)];
        let plant = table_of(rt.alloc(), 8, 4, &[255], &moves)??;
        let last_on = Condition {
            ones: 1 << 11,
            zeros: 1 << 8,
        };
        let bans = [last_on];
        let layer = BanLayer::new(&plant, &bans)?;
        assert!(rt; layer.is_safe(255, 7) && !layer.is_safe(255, 8));
        assert!(rt; layer.is_safe(255, 15) && layer.follows(255, 8, 0));
        let past = Condition {
            ones: 1 << 12,
            zeros: 0,
        };
        assert_eq!(rt;
            fault(&plant, &[last_on, past]),
            Some(LayerFault::BanBeyond { index: 1 })
        );
        Ok(())
    }

    #[test]
    fn bans_over_bans_are_all_at_once(rt: HostRuntime) -> Result<(), Fail> {
        let plant = small(rt.alloc())?;
        let off_in_0 = Condition { ones: 0, zeros: 3 };
        let (one, other, both) = ([NOT_ON], [off_in_0], [NOT_ON, off_in_0]);
        let lower = BanLayer::new(&plant, &one)?;
        let all = BanLayer::new(&plant, &both)?;
        let upper = BanLayer::new(&lower, &other)?;
        assert!(rt; !upper.is_safe(1, 1) && !upper.is_safe(0, 0) && upper.is_safe(0, 1));
        answer_alike(&rt, &upper, &all)
    }

    #[test]
    fn masks_of_nothing_and_of_both(rt: HostRuntime) -> Result<(), Fail> {
        // A ban without letters is always true; one that wants a letter both ways is never true.
        let plant = small(rt.alloc())?;
        let never = Condition { ones: 1, zeros: 1 };
        assert_eq!(rt; rows(&plant, &[never])?, [3, 3]);
        let always = Condition { ones: 0, zeros: 0 };
        let mut rows: [Row; 2] = [9; 2];
        let mut rules = [Rule::default(); 2];
        let bans = [never, always];
        let layer = BanLayer::new(&plant, &bans)?;
        assert_eq!(rt;
            draft(&layer, &mut rows, &mut rules),
            Err(DraftFault::LostStart { state: 0 })
        );
        Ok(())
    }

    #[test]
    fn the_draft_of_both_is_smaller(rt: HostRuntime) -> Result<(), Fail> {
        let plant = small(rt.alloc())?;
        let first = rows(&plant, &[NOT_OFF])?;
        let second = rows(&plant, &[NOT_ON])?;
        assert_eq!(rt; first, [3, 2]);
        assert_eq!(rt; second, [3, 1]);
        assert_eq!(rt; overlaid(first[0], second[0]), 3);
        assert_eq!(rt; overlaid(first[1], second[1]), 0);
        assert_eq!(rt; rows(&plant, &[NOT_OFF, NOT_ON])?, [1, 0]);
        Ok(())
    }
}
