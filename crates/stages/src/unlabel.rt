// Stage 1: labels (3.6).
ghost use Rattle.places.specs.declared.Stage.TheVariants as Stage;
ghost use Rattle.places.specs.Groups.{staged};
ghost use Rattle.places.specs.Writing.{Fitted};

use labels::{place_of, target, target2};
use places::{Expansion, File, write_groups};
use records::{jump, put_record, record_at};

// The file: nothing is worked out of it before it is written.
#[derive(Drop)]
pub struct Labels<'a> {
    file: File<'a>,
}

impl<'a> Expansion<'a> for Labels<'a> {
    ghost stage = { Stage.Labels };

    ghost given = { λ it. it.file.s.now };

    fn file(&self) -> File<'a> {
        self.file
    }

    // At place i, [s] becomes ##(i+1); a goto becomes ##m with m its target, 0 if it has none. Any other record stays.
    fn write_group(&self, i: usize, out: &mut [u8]) -> usize {
        let s = self.file.s;
        let record = record_at(s, i);
        // Each place is within 4,097, which is proved: try_from would add an arm that never runs.
        put_record(
            out,
            match record.kind {
                5 => jump((i + 1) as u16),
                6 => jump(place_of(target(s, record.x)) as u16),
                7 => jump(place_of(target2(s, record.x, record.y)) as u16),
                _ => record,
            },
        )
    }
}

// The whole stage: each record's group goes into the unwritten rest of the output. Answers how many bytes it wrote. Of a file longer
// than a base may be it writes nothing.
pub fn expand_labels(s: &[u8], out: &mut [u8]) -> usize
    ensures { Fitted (staged Stage.Labels s.now) out.old out.new result }
{
    if 4096 < s.len() / 8 {
        return 0;
    }
    write_groups(&Labels { file: File { s } }, out)
}
