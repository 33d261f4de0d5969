// Stage 2: calls and returns (4.1, 4.2).
#![tactic(auto)]

ghost use Rattle.std.specs.Prelude.{◌≡◌, [], ◌∷◌, ◌≤◌};
ghost use Rattle.rules.specs.Record.{rec};
ghost use Rattle.places.specs.declared.Stage.TheVariants as Stage;
ghost use Rattle.places.specs.Stages.{Leading};
ghost use Rattle.places.specs.Groups.{chain_by, staged};
ghost use Rattle.places.specs.Writing.{Fitted};

use places::{Expansion, File, Stage, fill_places, put_kept, put_pair, write_groups};
use records::{jump, put_record, record_at};
use rules::Record;
use tables::look;

fn record(kind: u8, x: u16, y: u16) -> Record
    ensures { result ≡ rec kind x y }
{
    Record { kind, x, y }
}

// The first four records of the chain for j: +compare(j){, pop, ##to and }{.
fn put_link(out: &mut [u8], j: u16, to: u16) -> usize
    ensures { Fitted (rec 8 1003 j ∷ rec 1 1002 0 ∷ rec 4 to 0 ∷ rec 10 0 0 ∷ []) out.old out.new result }
{
    let mut at = put_record(out, record(8, 1003, j));
    at += put_record(&mut out[at..], record(1, 1002, 0));
    at += put_record(&mut out[at..], jump(to));
    at + put_record(&mut out[at..], record(10, 0, 0))
}

// The chain for j: a link, whose second arm holds the chain for j-1, or ##0 where j is 1; and }.
fn write_chain(places: &[u16], j: usize, out: &mut [u8]) -> usize
    requires { (1 ≤ j) × (j ≤ 4096) }
    ensures { Fitted (chain_by places.now j) out.old out.new result }
{
    // j is within 4,096, which is proved: try_from would add an arm that never runs.
    let mut at = put_link(out, j as u16, look(places, j));
    at += match j {
        1 => put_record(&mut out[at..], jump(0)),
        _ => write_chain(places, j - 1, &mut out[at..]),
    };
    at + put_record(&mut out[at..], record(11, 0, 0))
}

// The file, and where its jumps lead.
#[derive(Drop)]
pub struct Calls<'a, 't> {
    file: File<'a>,
    places: &'t [u16],
    ghost led: { Leading Stage.Calls file.s.now places.now },
}

impl<'a, 't> Expansion<'a> for Calls<'a, 't> {
    ghost stage = { Stage.Calls };

    ghost given = { λ it. it.file.s.now };

    fn file(&self) -> File<'a> {
        self.file
    }

    // R##k at i becomes push(i+1) followed by a second-level ##k. ##R becomes the chain for n, the routine's record count.
    #[tactic(auto, using(places::proofs::Groups::chain_led, places::proofs::Places::kept_led), unfolding(places::specs::Groups::group, places::specs::Groups::called))]
    fn write_group(&self, i: usize, out: &mut [u8]) -> usize {
        let s = self.file.s;
        let Record { kind, x, .. } = record_at(s, i);
        match kind {
            // i is within 4,096 there, which is proved: try_from would add an arm that never runs.
            15 => put_pair(
                out,
                record(1, 1001, (i + 1) as u16),
                look(self.places, usize::from(x)),
            ),
            16 => write_chain(self.places, s.len() / 8, out),
            _ => put_kept(s, i, self.places, out),
        }
    }
}

// The whole stage: each record's group goes into the unwritten rest of the output. Answers how many bytes it wrote. Of a file longer
// than a base may be it writes nothing.
pub fn expand_calls(s: &[u8], out: &mut [u8]) -> usize
    ensures { Fitted (staged Stage.Calls s.now) out.old out.new result }
{
    if 4096 < s.len() / 8 {
        return 0;
    }
    let mut places = [0; 4097];
    fill_places(Stage::Calls, s, &mut places);
    let file = File { s };
    let made = Calls {
        file,
        places: &places,
    };
    write_groups(&made, out)
}
