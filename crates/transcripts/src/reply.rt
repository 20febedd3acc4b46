ghost use Rattle.std.specs.Prelude.{Some};
ghost use Rattle.transcripts.specs.Replies.{reply_text, reply_of};

use std::fmt;

// What a granted record was answered.
#[derive(Clone, Copy)]
pub(super) enum Reply<'p> {
    // a block was opened
    Opened { kind: u8, cells: u8, step: u32 },
    // so many senses stand
    Sensed(u32),
    // so many senses were removed
    Cleared(u32),
    // this point was decided, and this is its total
    Decided { point: &'p [i32], total: u64 },
}

impl fmt::Display for Reply<'_> {
    ghost output = { λ reply. Some (reply_text (reply_of reply)) };

    fn fmt<W: fmt::Write>(&self, f: &mut fmt::Formatter<W>) -> fmt::Result {
        match self {
            Reply::Opened { kind, cells, step } => write!(f, "open {kind} {cells} {step}"),
            Reply::Sensed(count) => write!(f, "sense {count}"),
            Reply::Cleared(count) => write!(f, "clear {count}"),
            Reply::Decided { point, total } => {
                write!(f, "point")?;
                for number in point.iter() {
                    write!(f, " {number}")?;
                }
                write!(f, " total {total}")
            }
        }
    }
}
