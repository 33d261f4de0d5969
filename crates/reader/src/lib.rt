// A typed routine read to its records.
#![tactic(auto)]

ghost use Rattle.std.specs.Prelude.{◌≡◌, ◌≤◌, ◌<◌, length, take};
ghost use Rattle.text.specs.Forms.{letter_of};
ghost use Rattle.text.specs.Names.{entries};
ghost use Rattle.text.specs.Reading.{Next, form_record, settled, named, with_action, with_number, read_text};
ghost use Rattle.text.specs.Answers.{reading, bytes_read, Answered};
ghost use Rattle.label_numbers.specs.Labels.{labels_of};
ghost use Rattle.name_index.specs.Index.{Indexed};
ghost use Rattle.reader.specs.Steps.{after, settled_step, Labelled, Stepped};
ghost use Rattle.reader.specs.Pages.{Keeps, ReadTo, HandedOn};

use forms::best;
use label_numbers::label_number;
use name_index::{fill_index, indexed_action};
use names::{list_fault, number_at};
use records::{jump, put_record};
use rules::{Record, Refusal};
use runs::span_of;
use signs::letter_of;
use text::{Fit, Sort, TextRefusal, TextVerdict};

// The list of names and its index.
#[derive(Clone, Copy)]
struct Actions<'a> {
    list: &'a [u8],
    heads: &'a [u16],
    links: &'a [u16],
    ghost few: { length list.now < 16000 },
    ghost indexed: { Indexed (entries list.now) heads.now links.now },
}

impl Actions<'_> {
    // The number of the action whose name is at p, from 1; 0 where p is 0, since the text does not come so far. It is at most 999, which is
    // proved at the cast, as a label's below: `try_from` would add an arm that never runs.
    fn number(&self, s: &[u8], p: usize) -> Result<u16, TextRefusal>
        ensures { (on : _ → Next) → after result on ≡ with_action s.now (entries self.now.list.now) p on }
    {
        if p == 0 {
            return Ok(0);
        }
        match indexed_action(self.list, self.heads, self.links, s, p - 1) {
            Some(x) => Ok(x as u16),
            None => Err(TextRefusal::Name(p)),
        }
    }
}

// The labels so far, by the places where they first stood: the first `count` of these.
#[derive(Drop)]
struct Labels {
    firsts: [usize; 999],
    count: usize,
    ghost few: { count ≤ 999 },
}

impl Labels {
    // The number of the label at p, from 1; 0 where p is 0. A new one is kept, but for the thousandth.
    fn number(&mut self, s: &[u8], p: usize) -> Result<u16, TextRefusal>
        ensures { Labelled s.now (take self.old.count self.old.firsts) p result (take self.new.count self.new.firsts) }
    {
        if p == 0 {
            return Ok(0);
        }
        if let Some(x) = label_number(s, &self.firsts[..self.count], p - 1) {
            return Ok(x as u16);
        }
        if self.count == 999 {
            return Err(TextRefusal::Name(p));
        }
        self.firsts[self.count] = p - 1;
        self.count += 1;
        Ok(self.count as u16)
    }
}

// The number whose digits start at p, from 1; 0 where p is 0.
#[tactic(auto, unfolding(text::specs::Reading::with_number))]
fn number(s: &[u8], p: usize) -> u16
    ensures { (on : _ → Next) → on result ≡ with_number s.now p on }
{
    if p == 0 { 0 } else { number_at(s, p - 1) }
}

// The numbers of a form's names.
fn numbers(
    f: Fit,
    s: &[u8],
    actions: &Actions<'_>,
    labels: &mut Labels,
) -> Result<(u16, u16), TextRefusal>
    ensures { after result (λ n. settled f n.0 n.1 (labels_of s.now (take labels.new.count labels.new.firsts))) ≡ named (letter_of f.form) s.now (entries actions.now.list.now) (labels_of s.now (take labels.old.count labels.old.firsts)) f }
{
    match letter_of(f.form) {
        b'a' => Ok((actions.number(s, f.x)?, 0)),
        b'k' => Ok((number(s, f.x), 0)),
        b's' => {
            let x = labels.number(s, f.x)?;
            let y = labels.number(s, f.y)?;
            Ok((x, y))
        }
        _ => Ok((0, 0)),
    }
}

// The record of a form: form 17, `!`, is ##0. A form's number has room in a kind, which is proved at the cast.
#[tactic(auto, unfolding(text::specs::Reading::form_record))]
fn record_of(form: usize, x: u16, y: u16) -> Record
    requires { form ≤ 17 }
    ensures { result ≡ form_record form x y }
{
    match form {
        17 => jump(0),
        _ => Record {
            kind: form as u8,
            x,
            y,
        },
    }
}

// With its numbers known: the record where the form is whole, and the place behind it; else 12.
#[tactic(auto, unfolding(crate::specs::Steps::settled_step))]
fn settle(f: Fit, x: u16, y: u16) -> Result<(Record, usize), TextRefusal>
    requires { (f.form ≤ 17) × (f.far < 18446744073709551615) }
    ensures { result ≡ settled_step f x y }
{
    if f.whole {
        Ok((record_of(f.form, x, y), f.far))
    } else {
        Err(TextRefusal::Text(f.far + 1))
    }
}

// The next instruction of the text from `at` on, and the place behind it.
fn next(
    s: &[u8],
    actions: &Actions<'_>,
    labels: &mut Labels,
    at: usize,
) -> Result<(Record, usize), TextRefusal>
    requires { at ≤ length s.now }
    ensures { Stepped s.now (entries actions.now.list.now) (take labels.old.count labels.old.firsts) at result (take labels.new.count labels.new.firsts) }
{
    let f = best(s, at + span_of(Sort::Blank, s, at, s.len()));
    let (x, y) = numbers(f, s, actions, labels)?;
    settle(f, x, y)
}

// Record number n, from 0, into a page that has room for 512.
fn keep(page: &mut [u8], n: usize, r: Record)
    requires { 4096 ≤ length page.old }
    ensures { Keeps n r page.old page.new }
{
    if n < 512 {
        put_record(&mut page[8 * n..], r);
    }
}

// Every instruction of the text, the records of the first 512 into the page: how many there are, or refusal 12 or 13.
fn read_all(s: &[u8], l: &[u8], page: &mut [u8]) -> TextVerdict
    requires { (length l.now < 16000) × (4096 ≤ length page.old) }
    ensures { ReadTo (read_text s.now (entries l.now)) page.old result page.new }
{
    if span_of(Sort::Blank, s, 0, s.len()) == s.len() {
        return Ok(0);
    }
    let mut heads = [0u16; 512];
    let mut links = [0u16; 1000];
    fill_index(l, &mut heads, &mut links);
    let actions = Actions {
        list: l,
        heads: &heads,
        links: &links,
    };
    let mut labels = Labels {
        firsts: [0; 999],
        count: 0,
    };
    let mut at = 0;
    let mut n = 0;
    // No `for`: where the next instruction starts, the one before it says.
    loop {
        let (record, end) = next(s, &actions, &mut labels, at)?;
        keep(page, n, record);
        n += 1;
        if s.len() < end {
            return Ok(n);
        }
        at = end;
    }
}

// The first n records on the page to the output, where they are not too many.
fn put_page(n: usize, page: &[u8], out: &mut [u8]) -> TextVerdict
    requires { length page.now ≡ 4096 }
    ensures { HandedOn n page.now out.old result out.new }
{
    if 512 < n {
        return Err(Refusal::Long.into());
    }
    if out.len() < 8 * n {
        return Err(Refusal::Room.into());
    }
    out[..8 * n].copy_from_slice(&page[..8 * n]);
    Ok(n)
}

// A typed routine read to records, in the first 8 bytes each of the output. Refusals: 13 at 0 for a list of names that is ragged or
// above 999 entries; 12 and 13, whichever comes first in the text; 2; 8.
pub fn read_text(text: &[u8], names: &[u8], out: &mut [u8]) -> TextVerdict
    ensures { Answered (reading text.now names.now out.old) (bytes_read text.now names.now) out.old result out.new }
{
    if list_fault(names) {
        return Err(TextRefusal::Name(0));
    }
    let mut page = [0u8; 4096];
    let n = read_all(text, names, &mut page)?;
    put_page(n, &page, out)
}
