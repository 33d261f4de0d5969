// Stage 3: loops (3.4).
#![tactic(auto)]

ghost use Rattle.std.specs.Prelude.{◌≡◌, get_or};
ghost use Rattle.rules.specs.Numbers.{past};
ghost use Rattle.rules.specs.Instruction.{loop};
ghost use Rattle.tables.specs.Passing.{Stopping, Opening};
ghost use Rattle.places.specs.declared.Stage.TheVariants as Stage;
ghost use Rattle.places.specs.Groups.{staged};
ghost use Rattle.places.specs.Stages.{Leading};
ghost use Rattle.places.specs.Writing.{Fitted};

use partners::Sort;
use places::{Expansion, File, Stage, fill_places, look_past, put_kept, put_pair, write_groups};
use records::{jump, put_record, record_at};
use rules::Record;
use tables::{fill_headers, fill_stops, look};

// The file, where its jumps lead, and of its loops the ends and the headers.
#[derive(Drop)]
pub struct Loops<'a, 't> {
    file: File<'a>,
    places: &'t [u16],
    ends: &'t [u16],
    headers: &'t [u16],
    ghost led: { Leading Stage.Loops file.s.now places.now },
    ghost stopped: { Stopping loop file.s.now ends.now },
    ghost opened: { Opening file.s.now headers.now },
}

impl<'a, 't> Loops<'a, 't> {
    fn past_end(&self, i: usize) -> u16
        ensures { result ≡ get_or self.now.places.now (past (get_or self.now.ends.now i 0)) 0 }
    {
        look_past(self.places, look(self.ends, i))
    }

    fn header(&self, i: usize) -> u16
        ensures { result ≡ get_or self.now.places.now (get_or self.now.headers.now i 0) 0 }
    {
        look(self.places, usize::from(look(self.headers, i)))
    }
}

impl<'a, 't> Expansion<'a> for Loops<'a, 't> {
    ghost stage = { Stage.Loops };

    ghost given = { λ it. it.file.s.now };

    fn file(&self) -> File<'a> {
        self.file
    }

    // With k the partner's number: +a{* becomes -a and a second-level ##(k+1); -a{* becomes +a and the same; *} becomes ##k.
    #[tactic(auto, using(places::proofs::Places::kept_led, places::proofs::Partners::loop_end), unfolding(places::specs::Groups::group, places::specs::Groups::looped))]
    fn write_group(&self, i: usize, out: &mut [u8]) -> usize {
        let Record { kind, x, y } = record_at(self.file.s, i);
        match kind {
            12 => put_pair(out, Record { kind: 3, x, y }, self.past_end(i)),
            13 => put_pair(out, Record { kind: 2, x, y }, self.past_end(i)),
            14 => put_record(out, jump(self.header(i))),
            _ => put_kept(self.file.s, i, self.places, out),
        }
    }
}

// The whole stage: each record's group goes into the unwritten rest of the output. Answers how many bytes it wrote. Of a file longer
// than a base may be it writes nothing.
pub fn expand_loops(s: &[u8], out: &mut [u8]) -> usize
    ensures { Fitted (staged Stage.Loops s.now) out.old out.new result }
{
    if 4096 < s.len() / 8 {
        return 0;
    }
    let mut places = [0; 4097];
    fill_places(Stage::Loops, s, &mut places);
    let mut ends = [0; 4097];
    fill_stops(Sort::Loop, s, &mut ends);
    let mut headers = [0; 4097];
    fill_headers(s, &mut headers);
    let file = File { s };
    let made = Loops {
        file,
        places: &places,
        ends: &ends,
        headers: &headers,
    };
    write_groups(&made, out)
}
