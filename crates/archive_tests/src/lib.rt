// Tests of rule files, log files and verdicts, at the edges.
#![tactic(auto)]

#[cfg(test)]
mod tests {
    use archive::{ArchiveFault, DraftFileFault, Verdict, draft_file, verdict_on};
    use log_file::LogFileFault;
    use plan::PlanFault;
    use reader::{LogFault, Phase};
    use records::BytesFault;
    use rule_file::{RuleFileFault, read_rules, write_rules};
    use rules::{MAX_RULES, Rule};
    use samples::rule;
    use std::process::Abort;
    use std::test::Fail;
    use worked::brake_plan;

    // The rules of the brake plan: the line is on in state 1 and off in state 2.
    const RULES: [u8; 11] = [0x21, 1, 0, 0, 1, 0x21, 2, 0, 0, 0, 0x2F];

    // Begin 1, set 1, see 2, close.
    const LOG: [u8; 8] = [0x31, 1, 0x32, 1, 0x33, 2, 0x34, 0x3F];

    // A rule that stands in the memory before a call.
    const HELD: Rule = Rule {
        state: 9,
        line: 0,
        prefix: 0,
        value: true,
    };

    // Reads into three places that hold another rule, and says whether a refusal left them alone.
    fn expect_refused(rt: &impl Abort, bytes: &[u8], want: RuleFileFault) {
        let mut list = [HELD; 3];
        assert_eq!(rt; read_rules(2, 1, bytes, &mut list), Err(want));
        assert_eq!(rt; list, [HELD; 3]);
    }

    fn unknown_rule(offset: usize) -> RuleFileFault {
        RuleFileFault::Bytes(BytesFault::UnknownKind { offset })
    }

    #[test]
    fn rule_file_damaged_at_every_byte(rt: HostRuntime) {
        for i in 0..11 {
            let mut bytes = RULES;
            bytes[i] = 0xFF;
            let offset = if i < 5 { 0 } else { 5 };
            let want = match i {
                0 | 5 | 10 => unknown_rule(i),
                _ => RuleFileFault::Misplaced { offset },
            };
            expect_refused(&rt, &bytes, want);
        }
    }

    #[test]
    fn rule_file_cut_at_every_byte(rt: HostRuntime) {
        for i in 0..11 {
            let offset = match i {
                0..=4 => 0,
                5..=9 => 5,
                _ => 10,
            };
            expect_refused(
                &rt,
                &RULES[0..i],
                RuleFileFault::Bytes(BytesFault::Unfinished { offset }),
            );
        }
    }

    #[test]
    fn places_of_a_list(rt: HostRuntime) {
        let mut one = [Rule::default(); 1];
        assert_eq!(rt;
            read_rules(2, 1, &RULES, &mut one),
            Err(RuleFileFault::ListFull { offset: 5 })
        );
        let mut none: [Rule; 0] = [];
        assert_eq!(rt;
            read_rules(2, 1, &RULES, &mut none),
            Err(RuleFileFault::ListFull { offset: 0 })
        );
        assert_eq!(rt; read_rules(2, 1, &[0x2F], &mut none), Ok(0));
        let mut three = [HELD; 3];
        assert_eq!(rt; read_rules(2, 1, &RULES, &mut three), Ok(2));
        assert_eq!(rt; three, [rule(1, 0, 0, true), rule(2, 0, 0, false), HELD]);
    }

    #[test]
    fn order_and_sizes(rt: HostRuntime) {
        expect_refused(
            &rt,
            &[0x21, 1, 0, 0, 1, 0x21, 1, 0, 0, 0, 0x2F],
            RuleFileFault::Misplaced { offset: 5 },
        );
        expect_refused(
            &rt,
            &[0x2F, 0],
            RuleFileFault::Bytes(BytesFault::AfterEnd { offset: 1 }),
        );
        let mut list = [Rule::default(); 2];
        assert_eq!(rt;
            read_rules(9, 1, &RULES, &mut list),
            Err(RuleFileFault::SizeLimits)
        );
        assert_eq!(rt;
            read_rules(2, 0, &RULES, &mut list),
            Err(RuleFileFault::SizeLimits)
        );
    }

    // A rule for every state, line and prefix that there can be.
    fn all_rules<R: AllocGlobal>(rt: &R) -> Result<Vec<Rule>, Fail> {
        let mut list = Vec::new(rt.alloc());
        for state in 0..=255 {
            for line in 0..4 {
                for prefix in 0..1u8 << line {
                    list.push(rule(state, line, prefix, true))?;
                }
            }
        }
        Ok(list)
    }

    #[test]
    fn as_many_rules_as_there_can_be(rt: HostRuntime) -> Result<(), Fail> {
        let list = all_rules(&rt)?;
        assert_eq!(rt; list.len(), 3840);
        let mut file = [7; 19201];
        assert_eq!(rt;
            write_rules(list.as_slice(), &mut file[0..19200]),
            Err(RuleFileFault::FileRoom { needed: 19201 })
        );
        assert_eq!(rt; file[0], 7);
        assert_eq!(rt; write_rules(list.as_slice(), &mut file), Ok(19201));
        let mut back = [Rule::default(); MAX_RULES];
        assert_eq!(rt; read_rules(8, 4, &file, &mut back), Ok(3840));
        assert!(rt; back.as_slice() == list.as_slice());
        assert_eq!(rt;
            read_rules(8, 4, &file, &mut back[0..3839]),
            Err(RuleFileFault::ListFull { offset: 19195 })
        );
        Ok(())
    }

    #[test]
    fn rule_file_of_the_plan(rt: HostRuntime) {
        let mut file = [7; 12];
        assert_eq!(rt; draft_file(rt.alloc(), &brake_plan(), &mut file), Ok(11));
        assert!(rt; file[0..11] == RULES[0..11]);
        assert_eq!(rt; file[11], 7);
        let mut short = [7; 10];
        let room = RuleFileFault::FileRoom { needed: 11 };
        assert_eq!(rt;
            draft_file(rt.alloc(), &brake_plan(), &mut short),
            Err(DraftFileFault::Rules(room))
        );
        assert_eq!(rt; short, [7; 10]);
    }

    fn expect_verdict<R: Abort + AllocGlobal>(
        rt: &R,
        log: &[u8],
        outcome: Result<usize, LogFileFault>,
        phase: Phase,
    ) {
        assert_eq!(rt;
            verdict_on(rt.alloc(), &brake_plan(), &RULES, log),
            Ok(Verdict { outcome, phase })
        );
    }

    // The phase after the calls whose records lie below `at`.
    fn phase_at(at: usize) -> Phase {
        match at {
            0 | 1 | 7 => Phase::Closed,
            2 | 3 => Phase::Poised { state: 1 },
            4 | 5 => Phase::Driven {
                state: 1,
                setting: 1,
            },
            _ => Phase::Poised { state: 2 },
        }
    }

    #[test]
    fn log_damaged_at_every_byte(rt: HostRuntime) {
        for i in 0..8 {
            let mut log = LOG;
            log[i] = 0xFF;
            let fault = match i {
                1 | 3 | 5 => LogFileFault::Refused {
                    offset: i - 1,
                    fault: LogFault::BeyondSizes { number: 255 },
                },
                _ => LogFileFault::Bytes(BytesFault::UnknownKind { offset: i }),
            };
            expect_verdict(&rt, &log, Err(fault), phase_at(i));
        }
        expect_verdict(&rt, &LOG, Ok(4), Phase::Closed);
    }

    #[test]
    fn log_cut_at_every_byte(rt: HostRuntime) {
        for i in 0..8 {
            let offset = match i {
                1 | 3 | 5 => i - 1,
                _ => i,
            };
            let fault = LogFileFault::Bytes(BytesFault::Unfinished { offset });
            expect_verdict(&rt, &LOG[0..i], Err(fault), phase_at(i));
        }
    }

    #[test]
    fn no_verdict(rt: HostRuntime) {
        let empty = BytesFault::Unfinished { offset: 0 };
        assert_eq!(rt;
            verdict_on(rt.alloc(), &[], &RULES, &LOG),
            Err(ArchiveFault::Plan(PlanFault::Bytes(empty)))
        );
        assert_eq!(rt;
            verdict_on(rt.alloc(), &brake_plan(), &[], &LOG),
            Err(ArchiveFault::Rules(RuleFileFault::Bytes(empty)))
        );
    }
}
