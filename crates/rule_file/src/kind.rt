// The kinds of record of a rule file.
ghost use Rattle.rule_file.specs.Encoding.{rule_kinds};
ghost use Rattle.rule_file.specs.Kinds.{code_of};

use records::FileKind;

#[derive(Clone, Copy, PartialEq, Eq, Debug)]
pub(crate) enum RuleFileKind {
    // A rule: its state, line, prefix and value, a byte each.
    Rule = 0x21,
    // The end of the file.
    End = 0x2F,
}

impl FileKind for RuleFileKind {
    ghost kinds = { rule_kinds };

    ghost code = { code_of };

    fn from_code(byte: u8) -> Option<Self> {
        match byte {
            0x21 => Some(RuleFileKind::Rule),
            0x2F => Some(RuleFileKind::End),
            _ => None,
        }
    }

    fn body(self) -> usize {
        match self {
            RuleFileKind::Rule => 4,
            RuleFileKind::End => 0,
        }
    }
}
