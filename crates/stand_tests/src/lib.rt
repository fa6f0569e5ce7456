// Tests of the console's stands.
#![tactic(auto)]

#[cfg(test)]
mod tests {
    use bench::BenchTable;
    use reader::{Call, LogFault, Phase, Reader};
    use rules::{Rule, RuledPlant};
    use samples::{rule, step, table_of};
    use stands::{AwaitsSetting, NotTaken, Stand};
    use std::alloc::Global;
    use std::test::Fail;

    // One state bit and two lines: from state 0 setting 3 leads to state 1, and from there setting 0 back.
    fn plant(heap: Global) -> Result<BenchTable, Fail> {
        let moves = [step(0, 3, 1), step(1, 0, 0)];
        Ok(table_of(heap, 1, 2, &[0], &moves)??)
    }

    // In state 0 line 0 is on, and then line 1 too.
    fn on_in_0() -> [Rule; 2] {
        [rule(0, 0, 0, true), rule(0, 1, 1, true)]
    }

    // What a call answered, and where the session stood after it.
    type Told = (Result<(), LogFault>, Phase);

    // The answer, and where the stand is; there the session ends.
    fn ended<S: Stand>(answer: Result<(), LogFault>, stand: S) -> Told {
        let phase = stand.phase();
        stand.close();
        (answer, phase)
    }

    // The same, of a call on a stand.
    fn after<S: Stand, T: Stand>(answer: Result<S, NotTaken<T>>) -> Told {
        match answer {
            Ok(next) => ended(Ok(()), next),
            Err(NotTaken { stand, fault }) => ended(Err(fault), stand),
        }
    }

    // What a call on the first stand of a session in this state comes to; where the begin is refused, its fault.
    fn begun<F: FnOnce(AwaitsSetting) -> Told>(plant: &BenchTable, state: u32, call: F) -> Told
        requires { F.IsAlwaysCallable call }
    {
        match AwaitsSetting::begin(plant, state) {
            Ok(poised) => call(poised),
            Err(fault) => (Err(fault), Phase::Closed),
        }
    }

    fn begin(plant: &BenchTable, state: u32) -> Told {
        begun(plant, state, |poised| ended(Ok(()), poised))
    }

    // A set in state 0.
    fn set(plant: &BenchTable, rules: &[Rule], setting: u32) -> Told {
        let ruled = RuledPlant { plant, rules };
        begun(plant, 0, |poised| after(poised.set(&ruled, setting)))
    }

    // A see in state 0 under the setting.
    fn see(plant: &BenchTable, setting: u32, state: u32) -> Told {
        let free = RuledPlant { plant, rules: &[] };
        begun(plant, 0, |poised| match poised.set(&free, setting) {
            Ok(driven) => after(driven.see(plant, state)),
            Err(NotTaken { stand, fault }) => ended(Err(fault), stand),
        })
    }

    // What is suggested in state 0.
    fn suggested(plant: &BenchTable, rules: &[Rule]) -> Result<Option<u32>, Fail> {
        let poised = AwaitsSetting::begin(plant, 0)?;
        let suggestion = poised.suggestion(&RuledPlant { plant, rules });
        poised.close();
        Ok(suggestion)
    }

    // The same call on a log reader, after the given calls.
    fn read(plant: &BenchTable, rules: &[Rule], before: &[Call], call: Call) -> Told {
        let ruled = RuledPlant { plant, rules };
        let mut reader = Reader::new();
        for earlier in before {
            let _ = reader.make(&ruled, *earlier);
        }
        let answer = reader.make(&ruled, call);
        (answer, reader.phase())
    }

    #[test]
    fn begin_checks_the_size_and_then_the_start(rt: HostRuntime) -> Result<(), Fail> {
        let plant = plant(rt.alloc())?;
        assert_eq!(rt; begin(&plant, 0), (Ok(()), Phase::Poised { state: 0 }));
        let no_start = LogFault::NoStart { state: 1 };
        assert_eq!(rt; begin(&plant, 1), (Err(no_start), Phase::Closed));
        let beyond = LogFault::BeyondSizes { number: 2 };
        assert_eq!(rt; begin(&plant, 2), (Err(beyond), Phase::Closed));
        Ok(())
    }

    #[test]
    fn a_refused_set_gives_the_same_stand_back(rt: HostRuntime) -> Result<(), Fail> {
        let plant = plant(rt.alloc())?;
        let poised = Phase::Poised { state: 0 };
        let driven = Phase::Driven {
            state: 0,
            setting: 3,
        };
        assert_eq!(rt; set(&plant, &on_in_0(), 3), (Ok(()), driven));
        let misfit = LogFault::Misfit { setting: 1 };
        assert_eq!(rt; set(&plant, &on_in_0(), 1), (Err(misfit), poised));
        // Setting 4 is beyond two lines, and would break the rules too.
        let beyond = LogFault::BeyondSizes { number: 4 };
        assert_eq!(rt; set(&plant, &on_in_0(), 4), (Err(beyond), poised));
        Ok(())
    }

    #[test]
    fn a_refused_see_gives_the_same_stand_back(rt: HostRuntime) -> Result<(), Fail> {
        let plant = plant(rt.alloc())?;
        let driven = Phase::Driven {
            state: 0,
            setting: 3,
        };
        assert_eq!(rt; see(&plant, 3, 1), (Ok(()), Phase::Poised { state: 1 }));
        let not_following = LogFault::NotFollowing { state: 0 };
        assert_eq!(rt; see(&plant, 3, 0), (Err(not_following), driven));
        let beyond = LogFault::BeyondSizes { number: 2 };
        assert_eq!(rt; see(&plant, 3, 2), (Err(beyond), driven));
        Ok(())
    }

    #[test]
    fn the_lowest_setting_that_fits_is_suggested(rt: HostRuntime) -> Result<(), Fail> {
        let plant = plant(rt.alloc())?;
        assert_eq!(rt; suggested(&plant, &[])?, Some(0));
        assert_eq!(rt; suggested(&plant, &[rule(0, 0, 0, true)])?, Some(1));
        assert_eq!(rt; suggested(&plant, &[rule(0, 1, 0, true)])?, Some(1));
        assert_eq!(rt; suggested(&plant, &on_in_0())?, Some(3));
        // A rule of another state binds nothing here.
        assert_eq!(rt; suggested(&plant, &[rule(1, 0, 0, true)])?, Some(0));
        Ok(())
    }

    #[test]
    fn nothing_is_suggested_where_nothing_fits(rt: HostRuntime) -> Result<(), Fail> {
        let plant = plant(rt.alloc())?;
        let against = [rule(0, 0, 0, true), rule(0, 0, 0, false)];
        assert_eq!(rt; suggested(&plant, &against)?, None);
        Ok(())
    }

    #[test]
    fn stands_go_as_the_log_reader_goes(rt: HostRuntime) -> Result<(), Fail> {
        let plant = plant(rt.alloc())?;
        let rules = on_in_0();
        let first = Call::Begin { state: 0 };
        let second = Call::Set { setting: 3 };
        for number in 0..5 {
            let read_begin = read(&plant, &rules, &[], Call::Begin { state: number });
            assert_eq!(rt; begin(&plant, number), read_begin);
            let read_set = read(&plant, &rules, &[first], Call::Set { setting: number });
            assert_eq!(rt; set(&plant, &rules, number), read_set);
            let read_see = read(&plant, &[], &[first, second], Call::See { state: number });
            assert_eq!(rt; see(&plant, 3, number), read_see);
        }
        Ok(())
    }

    #[test]
    fn either_stand_is_closed(rt: HostRuntime) -> Result<(), Fail> {
        let plant = plant(rt.alloc())?;
        let poised = AwaitsSetting::begin(&plant, 0)?;
        assert_eq!(rt; poised.close(), Phase::Closed);
        let free = RuledPlant {
            plant: &plant,
            rules: &[],
        };
        match AwaitsSetting::begin(&plant, 0)?.set(&free, 0) {
            Ok(driven) => {
                assert_eq!(rt; driven.close(), Phase::Closed);
                Ok(())
            },
            Err(NotTaken { stand, fault: _ }) => {
                stand.close();
                Err(Fail::new("without rules every setting fits"))
            }
        }
    }
}
