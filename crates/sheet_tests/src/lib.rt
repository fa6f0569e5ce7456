// Tests of the sheet call, at the edges.
#![tactic(auto)]

#[cfg(test)]
mod tests {
    use draft::DraftFault;
    use plan::PlanFault;
    use plant::Row;
    use records::BytesFault;
    use refusal::{Layer, Refusal};
    use rules::Rule;
    use samples::rule;
    use sheet_call::{Sheet, SheetFault, make_sheet};
    use std::process::Abort;
    use std::test::Fail;
    use worked::brake_plan;

    // What the memory holds before a call.
    const BYTE: u8 = 0xaa;

    const ROW: Row = 7;

    const RULE: Rule = Rule {
        state: 9,
        line: 8,
        prefix: 7,
        value: true,
    };

    // How many bytes, rows and places.
    #[derive(Clone, Copy)]
    struct Room {
        text: usize,
        rows: usize,
        rules: usize,
    }

    // As much as a call wants.
    const WANTED: Room = Room {
        text: 8192,
        rows: 256,
        rules: 3840,
    };

    const NOTHING: Room = Room {
        text: 0,
        rows: 0,
        rules: 0,
    };

    // Memory to lend, a byte, a row and a place more than a call wants.
    #[derive(Drop)]
    struct Desk {
        text: [u8; 8193],
        rows: [Row; 257],
        rules: [Rule; 3841],
    }

    impl Desk {
        fn fresh() -> Desk {
            Desk {
                text: [BYTE; 8193],
                rows: [ROW; 257],
                rules: [RULE; 3841],
            }
        }

        // Lends so many bytes, rows and places.
        fn call<R: AllocGlobal>(&mut self, rt: &R, plan: &[u8], lent: Room) -> Result<Sheet, Fail> {
            if lent.text > 8193 || lent.rows > 257 || lent.rules > 3841 {
                return Err(Fail::new("not so much memory"));
            }
            Ok(make_sheet(
                rt.alloc(),
                plan,
                &mut self.text[0..lent.text],
                &mut self.rows[0..lent.rows],
                &mut self.rules[0..lent.rules],
            ))
        }

        // Nothing but so many bytes, rows and places was written.
        fn check_kept(&self, rt: &impl Abort, written: Room) {
            assert!(rt;
                self.text
                    .iter()
                    .skip(written.text)
                    .all(|byte| *byte == BYTE)
            );
            assert!(rt; self.rows.iter().skip(written.rows).all(|row| *row == ROW));
            assert!(rt;
                self.rules
                    .iter()
                    .skip(written.rules)
                    .all(|rule| *rule == RULE)
            );
        }

        fn check_text(&self, rt: &impl Abort, length: usize, want: &str) {
            assert_eq!(rt; length, want.len());
            assert!(rt; self.text.starts_with(want.as_bytes()));
        }
    }

    // A refusal that has a line: its text, and what it leaves.
    fn check_refused<R: Abort + AllocGlobal>(
        rt: &R,
        plan: &[u8],
        fault: SheetFault,
        line: &str,
        rows: usize,
    ) -> Result<(), Fail> {
        let mut desk = Desk::fresh();
        let sheet = desk.call(rt, plan, WANTED)?;
        assert_eq!(rt; sheet.rules, Err(fault));
        desk.check_text(rt, sheet.length, line);
        let text = sheet.length;
        desk.check_kept(
            rt,
            Room {
                text,
                rows,
                rules: 0,
            },
        );
        Ok(())
    }

    // Memory of a wrong length: 11, no text, and nothing is written.
    fn check_room<R: Abort + AllocGlobal>(
        rt: &R,
        plan: &[u8],
        (text, rows, rules): (usize, usize, usize),
        fault: SheetFault,
        place: usize,
    ) -> Result<(), Fail> {
        let mut desk = Desk::fresh();
        let sheet = desk.call(rt, plan, Room { text, rows, rules })?;
        let want = Sheet {
            length: 0,
            rules: Err(fault),
        };
        assert_eq!(rt; sheet, want);
        assert_eq!(rt;
            fault.refusal(),
            Some(Refusal::new(11, place, Layer::Draft))
        );
        desk.check_kept(rt, NOTHING);
        Ok(())
    }

    #[test]
    fn memory_of_a_wrong_length(rt: HostRuntime) -> Result<(), Fail> {
        let plan = brake_plan();
        let text = SheetFault::TextLength { needed: 8192 };
        let rows = SheetFault::RowCount { needed: 256 };
        let rules = SheetFault::RulePlaces { needed: 3840 };
        check_room(&rt, &plan, (8191, 256, 3840), text, 8192)?;
        check_room(&rt, &plan, (0, 256, 3840), text, 8192)?;
        check_room(&rt, &plan, (8192, 255, 3840), rows, 256)?;
        check_room(&rt, &plan, (8192, 257, 3840), rows, 256)?;
        check_room(&rt, &plan, (8192, 256, 3839), rules, 3840)?;
        check_room(&rt, &plan, (8192, 256, 3841), rules, 3840)
    }

    #[test]
    fn the_text_comes_before_the_rows_and_those_before_the_rules(
        rt: HostRuntime,
    ) -> Result<(), Fail> {
        let text = SheetFault::TextLength { needed: 8192 };
        let rows = SheetFault::RowCount { needed: 256 };
        let rules = SheetFault::RulePlaces { needed: 3840 };
        check_room(&rt, &[], (8191, 255, 3841), text, 8192)?;
        check_room(&rt, &[], (8193, 257, 3839), rows, 256)?;
        check_room(&rt, &[], (8193, 256, 3839), rules, 3840)
    }

    #[test]
    fn the_brake_plan(rt: HostRuntime) -> Result<(), Fail> {
        let mut desk = Desk::fresh();
        let lent = Room {
            text: 8193,
            ..WANTED
        };
        let sheet = desk.call(&rt, &brake_plan(), lent)?;
        assert_eq!(rt; sheet.rules, Ok(2));
        desk.check_text(&rt, sheet.length, "0 11\n1 01\n2 10\n3 00\n");
        assert!(rt; desk.rows[0..4] == [3, 2, 1, 0]);
        assert_eq!(rt; desk.rules[0], rule(1, 0, 0, true));
        assert_eq!(rt; desk.rules[1], rule(2, 0, 0, false));
        let written = Room {
            text: 20,
            rows: 4,
            rules: 2,
        };
        desk.check_kept(&rt, written);
        Ok(())
    }

    #[test]
    fn refused_by_the_bytes(rt: HostRuntime) -> Result<(), Fail> {
        let unfinished = PlanFault::Bytes(BytesFault::Unfinished { offset: 0 });
        let fault = SheetFault::Plan(unfinished);
        check_refused(&rt, &[], fault, "refused 1 0 bytes\n", 0)?;
        let unknown = PlanFault::Bytes(BytesFault::UnknownKind { offset: 4 });
        let fault = SheetFault::Plan(unknown);
        check_refused(&rt, &[1, 1, 1, 0, 9], fault, "refused 2 4 bytes\n", 0)
    }

    // A long input is refused by what stands after the plan.
    #[test]
    fn refused_by_what_follows(rt: HostRuntime) -> Result<(), Fail> {
        let mut bytes = Vec::from_slice(rt.alloc(), &brake_plan())?;
        bytes.extend_from_slice(&[15; 2048])?;
        let after = PlanFault::Bytes(BytesFault::AfterEnd { offset: 59 });
        let fault = SheetFault::Plan(after);
        check_refused(&rt, bytes.as_slice(), fault, "refused 7 59 bytes\n", 0)
    }

    #[test]
    fn refused_by_the_plan(rt: HostRuntime) -> Result<(), Fail> {
        let fault = SheetFault::Plan(PlanFault::SizeLimits);
        check_refused(&rt, &[1, 9, 1, 0, 15], fault, "refused 4 0 plan\n", 0)?;
        let mut clashing = brake_plan();
        clashing[24] = 4;
        clashing[28] = 0;
        let fault = SheetFault::Plan(PlanFault::Clash { offset: 18 });
        check_refused(&rt, &clashing, fault, "refused 9 18 plan\n", 0)
    }

    // Without the third next clause no state lasts: the rows of all four are empty.
    #[test]
    fn refused_by_the_draft(rt: HostRuntime) -> Result<(), Fail> {
        let plan = brake_plan();
        let mut bytes = Vec::from_slice(rt.alloc(), &plan[0..29])?;
        bytes.extend_from_slice(&plan[40..59])?;
        let lost = SheetFault::Draft(DraftFault::LostStart { state: 0 });
        check_refused(&rt, bytes.as_slice(), lost, "refused 10 0 draft\n", 4)?;
        let mut desk = Desk::fresh();
        let _ = desk.call(&rt, bytes.as_slice(), WANTED)?;
        assert!(rt; desk.rows[0..4] == [0; 4]);
        Ok(())
    }

    // Nothing is banned: 256 lines of a number, a space, 16 digits and an end, and no rule.
    #[test]
    fn everything_is_open(rt: HostRuntime) -> Result<(), Fail> {
        let mut desk = Desk::fresh();
        let sheet = desk.call(&rt, &[1, 8, 4, 8, 15], WANTED)?;
        assert_eq!(rt; sheet.rules, Ok(0));
        assert_eq!(rt; sheet.length, 10 * 19 + 90 * 20 + 156 * 21);
        assert!(rt; desk.rows[0..256] == [65535; 256]);
        let written = Room {
            text: 5266,
            rows: 256,
            rules: 0,
        };
        desk.check_kept(&rt, written);
        Ok(())
    }
}
