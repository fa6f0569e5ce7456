// Tests of the log reader.
#![tactic(auto)]

#[cfg(test)]
mod tests {
    use bench::{BenchTable, Move};
    use draft::draft;
    use plant::{Row, WrongLength};
    use reader::{Call, LogFault, Phase, Reader};
    use refusal::{Layer, Refusal};
    use rules::{Rule, RuledPlant};
    use samples::{rule, step, table_of};
    use std::alloc::Global;
    use std::process::Abort;
    use std::test::Fail;

    const BEGIN: Call = Call::Begin { state: 0 };

    const SET: Call = Call::Set { setting: 0 };

    const SEE: Call = Call::See { state: 1 };

    const POISED: Phase = Phase::Poised { state: 0 };

    const DRIVEN: Phase = Phase::Driven {
        state: 0,
        setting: 0,
    };

    // A table with one state bit and one line that starts in state 0.
    fn table(heap: Global, moves: &[Move]) -> Result<BenchTable, Fail> {
        Ok(table_of(heap, 1, 1, &[0], moves)??)
    }

    // From 0 with the line off to 1, and from 1 to 0 with it off, or on to stay. There is one rule: in 0 the line is off.
    fn plant(heap: Global) -> Result<BenchTable, Fail> {
        table(heap, &[step(0, 0, 1), step(1, 0, 0), step(1, 1, 1)])
    }

    // Makes the calls on a new reader, and compares the last answer and the phase after it.
    fn last<R: Abort + AllocGlobal>(
        rt: &R,
        rules: &[Rule],
        calls: &[Call],
        answer: Result<(), LogFault>,
        phase: Phase,
    ) -> Result<(), Fail> {
        let plant = plant(rt.alloc())?;
        let ruled = RuledPlant {
            plant: &plant,
            rules,
        };
        let mut reader = Reader::new();
        let mut answers = vec![in rt.alloc(); Ok(()); calls.len()]?;
        assert_eq!(rt; reader.run(&ruled, calls, &mut answers), Ok(()));
        assert_eq!(rt; answers.last(), Some(&answer));
        assert_eq!(rt; reader.phase(), phase);
        Ok(())
    }

    fn turned(phase: Phase) -> Result<(), LogFault> {
        Err(LogFault::OutOfTurn { phase })
    }

    #[test]
    fn closed_takes_a_begin_alone(rt: HostRuntime) -> Result<(), Fail> {
        last(&rt, &[], &[BEGIN], Ok(()), POISED)?;
        for call in [SET, SEE, Call::Close] {
            last(&rt, &[], &[call], turned(Phase::Closed), Phase::Closed)?;
        }
        Ok(())
    }

    #[test]
    fn poised_takes_a_set_or_a_close(rt: HostRuntime) -> Result<(), Fail> {
        last(&rt, &[], &[BEGIN, SET], Ok(()), DRIVEN)?;
        last(&rt, &[], &[BEGIN, Call::Close], Ok(()), Phase::Closed)?;
        for call in [BEGIN, SEE] {
            last(&rt, &[], &[BEGIN, call], turned(POISED), POISED)?;
        }
        Ok(())
    }

    #[test]
    fn driven_takes_a_see_or_a_close(rt: HostRuntime) -> Result<(), Fail> {
        let seen = Phase::Poised { state: 1 };
        last(&rt, &[], &[BEGIN, SET, SEE], Ok(()), seen)?;
        last(&rt, &[], &[BEGIN, SET, Call::Close], Ok(()), Phase::Closed)?;
        for call in [BEGIN, SET] {
            last(&rt, &[], &[BEGIN, SET, call], turned(DRIVEN), DRIVEN)?;
        }
        Ok(())
    }

    #[test]
    fn a_run_goes_on_after_a_refusal(rt: HostRuntime) -> Result<(), Fail> {
        let plant = plant(rt.alloc())?;
        let ruled = RuledPlant {
            plant: &plant,
            rules: &[],
        };
        let mut reader = Reader::new();
        let mut answers: [Result<(), LogFault>; 3] = [Ok(()); 3];
        assert_eq!(rt;
            reader.run(&ruled, &[SET, BEGIN, SEE], &mut answers),
            Ok(())
        );
        assert_eq!(rt; answers, [turned(Phase::Closed), Ok(()), turned(POISED)]);
        assert_eq!(rt; reader.phase(), POISED);
        Ok(())
    }

    #[test]
    fn a_run_without_a_place_for_each_answer_makes_no_call(rt: HostRuntime) -> Result<(), Fail> {
        let plant = plant(rt.alloc())?;
        let ruled = RuledPlant {
            plant: &plant,
            rules: &[],
        };
        let mut reader = Reader::new();
        let mut answers: [Result<(), LogFault>; 1] = [turned(DRIVEN)];
        let few = WrongLength { needed: 2 };
        assert_eq!(rt; reader.run(&ruled, &[BEGIN, SET], &mut answers), Err(few));
        assert_eq!(rt; answers, [turned(DRIVEN)]);
        assert_eq!(rt; reader.phase(), Phase::Closed);
        Ok(())
    }

    #[test]
    fn turn_comes_before_size(rt: HostRuntime) -> Result<(), Fail> {
        let far = Call::Set { setting: 2 };
        let cases: [(&[Call], Phase); 4] = [
            (&[far], Phase::Closed),
            (&[BEGIN, Call::Begin { state: 2 }], POISED),
            (&[BEGIN, Call::See { state: 2 }], POISED),
            (&[BEGIN, SET, far], DRIVEN),
        ];
        for (calls, phase) in cases {
            last(&rt, &[], calls, turned(phase), phase)?;
        }
        Ok(())
    }

    #[test]
    fn size_comes_before_the_rest(rt: HostRuntime) -> Result<(), Fail> {
        // Setting 2 is beyond the one line, and would break the rule too.
        let far = Err(LogFault::BeyondSizes { number: 2 });
        let on = [rule(0, 0, 0, true)];
        let cases: [(&[Rule], &[Call], Phase); 3] = [
            (&[], &[Call::Begin { state: 2 }], Phase::Closed),
            (&on, &[BEGIN, Call::Set { setting: 2 }], POISED),
            (&[], &[BEGIN, SET, Call::See { state: 2 }], DRIVEN),
        ];
        for (rules, calls, phase) in cases {
            last(&rt, rules, calls, far, phase)?;
        }
        Ok(())
    }

    #[test]
    fn the_rest(rt: HostRuntime) -> Result<(), Fail> {
        let off = [rule(0, 0, 0, false)];
        let begin = Call::Begin { state: 1 };
        let no_start = LogFault::NoStart { state: 1 };
        last(&rt, &[], &[begin], Err(no_start), Phase::Closed)?;
        let set = Call::Set { setting: 1 };
        let misfit = LogFault::Misfit { setting: 1 };
        last(&rt, &off, &[BEGIN, set], Err(misfit), POISED)?;
        let see = Call::See { state: 0 };
        let not_following = LogFault::NotFollowing { state: 0 };
        last(&rt, &[], &[BEGIN, SET, see], Err(not_following), DRIVEN)
    }

    #[test]
    fn contradictory_rules_leave_no_setting(rt: HostRuntime) -> Result<(), Fail> {
        let rules = [rule(0, 0, 0, false), rule(0, 0, 0, true)];
        for setting in [0, 1] {
            let misfit = Err(LogFault::Misfit { setting });
            last(&rt, &rules, &[BEGIN, Call::Set { setting }], misfit, POISED)?;
        }
        Ok(())
    }

    #[test]
    fn rules_out_of_range_bind_nothing(rt: HostRuntime) -> Result<(), Fail> {
        let rules = [
            rule(2, 0, 0, true),
            rule(0, 1, 0, true),
            rule(0, 0, 1, true),
            rule(1, 0, 0, true),
        ];
        last(&rt, &rules, &[BEGIN, SET], Ok(()), DRIVEN)
    }

    #[test]
    fn a_state_with_an_empty_row_has_no_rules(rt: HostRuntime) -> Result<(), Fail> {
        // State 1 has no move, so its row is empty and no rule speaks of it. By the rules of the draft nobody gets there.
        let plant = table(rt.alloc(), &[step(0, 0, 0), step(0, 1, 1)])?;
        let mut rows: [Row; 2] = [0; 2];
        let mut rules = [Rule::default(); 2];
        assert_eq!(rt; draft(&plant, &mut rows, &mut rules).ok(), Some(1));
        assert_eq!(rt; rows, [1, 0]);
        let plant = &plant;
        let rules = &rules[0..1];
        let ruled = RuledPlant { plant, rules };
        let free = RuledPlant { plant, rules: &[] };
        let mut reader = Reader::new();
        assert_eq!(rt; reader.begin(&ruled, 0), Ok(()));
        assert_eq!(rt; reader.set(&ruled, 1), Err(LogFault::Misfit { setting: 1 }));
        assert_eq!(rt; reader.set(&free, 1), Ok(()));
        assert_eq!(rt; reader.see(&ruled, 1), Ok(()));
        assert_eq!(rt; reader.set(&ruled, 0), Ok(()));
        assert_eq!(rt;
            reader.see(&ruled, 0),
            Err(LogFault::NotFollowing { state: 0 })
        );
        Ok(())
    }

    #[test]
    fn a_session_by_the_rules_of_its_draft(rt: HostRuntime) -> Result<(), Fail> {
        let plant = plant(rt.alloc())?;
        let mut rows: [Row; 2] = [0; 2];
        let mut rules = [Rule::default(); 2];
        assert_eq!(rt; draft(&plant, &mut rows, &mut rules).ok(), Some(1));
        assert_eq!(rt; rules[0], rule(0, 0, 0, false));
        let ruled = RuledPlant {
            plant: &plant,
            rules: &rules[0..1],
        };
        let mut reader = Reader::new();
        assert_eq!(rt; reader.begin(&ruled, 0), Ok(()));
        assert_eq!(rt; reader.set(&ruled, 1), Err(LogFault::Misfit { setting: 1 }));
        assert_eq!(rt; reader.set(&ruled, 0), Ok(()));
        assert_eq!(rt; reader.see(&ruled, 1), Ok(()));
        assert_eq!(rt; reader.close(&ruled), Ok(()));
        assert_eq!(rt; reader.phase(), Phase::Closed);
        Ok(())
    }

    #[test]
    fn faults_show_their_numbers(rt: HostRuntime) {
        let closed = Phase::Closed;
        let cases = [
            (LogFault::OutOfTurn { phase: closed }, 15, 0),
            (LogFault::OutOfTurn { phase: POISED }, 15, 1),
            (LogFault::OutOfTurn { phase: DRIVEN }, 15, 2),
            (LogFault::BeyondSizes { number: 9 }, 12, 9),
            (LogFault::NoStart { state: 7 }, 16, 7),
            (LogFault::Misfit { setting: 6 }, 17, 6),
            (LogFault::NotFollowing { state: 5 }, 18, 5),
        ];
        for (fault, number, place) in cases {
            assert_eq!(rt; fault.refusal(), Refusal::new(number, place, Layer::Log));
        }
    }
}
