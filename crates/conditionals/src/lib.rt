// Stage 4: conditionals (3.2, 3.3).
#![tactic(auto)]

ghost use Rattle.std.specs.Prelude.{◌≡◌, get_or};
ghost use Rattle.rules.specs.Numbers.{past};
ghost use Rattle.rules.specs.Instruction.{conditional};
ghost use Rattle.tables.specs.Passing.{Stopping};
ghost use Rattle.places.specs.declared.Stage.TheVariants as Stage;
ghost use Rattle.places.specs.Groups.{staged};
ghost use Rattle.places.specs.Stages.{Leading};
ghost use Rattle.places.specs.Writing.{Fitted};

use partners::Sort;
use places::{Expansion, File, Stage, fill_places, look_past, put_kept, put_pair, write_groups};
use records::{jump, put_record, record_at};
use rules::Record;
use tables::{fill_stops, look};

// The file, where its jumps lead, and of its conditionals where each arm ends.
#[derive(Drop)]
pub struct Conditionals<'a, 't> {
    file: File<'a>,
    places: &'t [u16],
    stops: &'t [u16],
    ghost led: { Leading Stage.Conditionals file.s.now places.now },
    ghost stopped: { Stopping conditional file.s.now stops.now },
}

impl<'a, 't> Conditionals<'a, 't> {
    fn past_stop(&self, i: usize) -> u16
        ensures { result ≡ get_or self.now.places.now (past (get_or self.now.stops.now i 0)) 0 }
    {
        look_past(self.places, look(self.stops, i))
    }
}

impl<'a, 't> Expansion<'a> for Conditionals<'a, 't> {
    ghost stage = { Stage.Conditionals };

    ghost given = { λ it. it.file.s.now };

    fn file(&self) -> File<'a> {
        self.file
    }

    // With k the separator's number, or the end's where there is no separator: +a{ becomes -a and a second-level ##(k+1), -a{ becomes
    // +a and the same. }{ becomes ##(k+1), k its end's number. } at i becomes ##(i+1).
    #[tactic(auto, using(places::proofs::Places::kept_led, places::proofs::Partners::arm_end), unfolding(places::specs::Groups::group, places::specs::Groups::parted))]
    fn write_group(&self, i: usize, out: &mut [u8]) -> usize {
        let Record { kind, x, y } = record_at(self.file.s, i);
        match kind {
            8 => put_pair(out, Record { kind: 3, x, y }, self.past_stop(i)),
            9 => put_pair(out, Record { kind: 2, x, y }, self.past_stop(i)),
            10 => put_record(out, jump(self.past_stop(i))),
            11 => put_record(out, jump(look(self.places, i + 1))),
            _ => put_kept(self.file.s, i, self.places, out),
        }
    }
}

// The whole stage: each record's group goes into the unwritten rest of the output. Answers how many bytes it wrote. Of a file longer
// than a base may be it writes nothing.
pub fn expand_conditionals(s: &[u8], out: &mut [u8]) -> usize
    ensures { Fitted (staged Stage.Conditionals s.now) out.old out.new result }
{
    if 4096 < s.len() / 8 {
        return 0;
    }
    let mut places = [0; 4097];
    fill_places(Stage::Conditionals, s, &mut places);
    let mut stops = [0; 4097];
    fill_stops(Sort::Conditional, s, &mut stops);
    let file = File { s };
    let made = Conditionals {
        file,
        places: &places,
        stops: &stops,
    };
    write_groups(&made, out)
}
