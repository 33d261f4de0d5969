// A stage, and the one loop that every stage goes through.
ghost use Rattle.std.specs.Prelude.{◌≡◌, ◌≤◌, List, ℕ};
ghost use Rattle.rules.specs.Record.{count};
ghost use Rattle.places.specs.declared.Stage.{Stage};
ghost use Rattle.places.specs.Groups.{group, staged};
ghost use Rattle.places.specs.Writing.{Fitted};

// The file that a stage is given: no longer than a base may be.
#[derive(Clone, Copy)]
pub struct File<'a> {
    pub s: &'a [u8],
    ghost few: { count s.now ≤ 4096 },
}

// A stage with what was worked out of its file before it writes: where jumps lead, and what belongs to what.
pub trait Expansion<'a> {
    // Its name in the definitions, and the file that it is given.
    ghost stage: { Stage };

    ghost given: { Self → List ℕ };

    fn file(&self) -> File<'a>
        ensures { result.s.now ≡ given self.now };

    // The group of record i, as much of it as fits.
    fn write_group(&self, i: usize, out: &mut [u8]) -> usize
        ensures { Fitted (group stage (given self.now) i) out.old out.new result };
}

// The whole stage: each record's group goes into the unwritten rest of the output. Answers how many bytes it wrote.
pub fn write_groups<'a, E: Expansion<'a>>(stage: &E, out: &mut [u8]) -> usize
    ensures { Fitted (staged E.stage (E.given stage.now)) out.old out.new result }
{
    let n = stage.file().s.len() / 8;
    let mut at = 0;
    for i in 0..n {
        at += stage.write_group(i + 1, &mut out[at..]);
    }
    at
}
