//! The numbers of short texts, found at once.
ghost use Rattle.std.specs.Prelude.{◌≡◌, ◌≤◌, All, List, length, IfOk, IfSome};
ghost use Rattle.metric_names.specs.declared.value.AttrValue.{AttrValue};
ghost use Rattle.metric_contents.specs.Numbering.{Numbers};
ghost use Rattle.metric_contents.specs.Packed.{text_of};
ghost use Rattle.metric_contents.specs.Shortcuts.{IsRight, Leads};

use crate::numbering::Numbering;
use crate::packed::Packed;
use metric_names::AttrValue;
use std::alloc::{AllocError, Global};

// How many texts may meet. More take no shortcut, so that a catalogue whose texts were chosen to meet costs
// no more steps for each than others do.
const MOST_MEETING: usize = 16;

// A text and its number.
#[derive(Clone, Copy)]
pub(crate) struct Numbered {
    pub(crate) text: Packed,
    pub(crate) number: u16,
}

// A text that is to have a slot: its place among the values, its hash, and which texts it meets.
#[derive(Clone, Copy)]
struct Hashed {
    place: usize,
    hash: u64,
    meeting: usize,
}

// Short texts of a list and their numbers, each in a slot of its own. Texts that meet by one part of their
// hash are told apart by another part: the hash is turned by as many bits as all of them find empty slots
// by. So a look-up goes to one slot, whichever text it is for: nobody can choose texts that cost more. A text
// that is not in its slot may still have a number.
#[derive(Drop)]
pub(crate) struct Shortcuts {
    slots: Vec<Option<Numbered>>,
    turns: Vec<u8>,
}

impl Shortcuts {
    // Shortcuts to the numbers of texts among these values.
    pub(crate) fn new(
        alloc: Global,
        values: &[AttrValue],
        numbering: &Numbering,
    ) -> Result<Shortcuts, AllocError>
        requires few { length values.now ≤ 1000 }
        requires numbers { Numbers numbering.now values.now }
        ensures { IfOk result (λ made. All (IsRight values.now) made.slots.items) }
    {
        let mut made = Shortcuts::empty(alloc, slots_for(values))?;
        let hashed = made.hashed(alloc, values)?;
        for meeting in hashed.chunk_by(|a, b| a.meeting == b.meeting) {
            made.put_all(meeting, values, numbering);
        }
        Ok(made)
    }

    // So many empty slots.
    fn empty(alloc: Global, count: usize) -> Result<Shortcuts, AllocError>
        ensures { IfOk result (λ made.
            (values : List AttrValue) → All (IsRight values) made.slots.items) }
    {
        let mut slots = Vec::with_capacity(alloc, count)?;
        for _ in 0..count {
            slots.push(None)?;
        }
        let turns = vec![in alloc; 0; count]?;
        Ok(Shortcuts { slots, turns })
    }

    // The number of a text, where it is found at once.
    #[inline(always)]
    pub(crate) fn number_of(&self, text: &str) -> Option<u16>
        ensures { IfSome result (λ number. Leads self.now.slots.items text.now number) }
    {
        let text = Packed::of(text)?;
        let hash = text.hash();
        let turn = *self.turns.get(self.meeting_of(hash))?;
        let held = (*self.slots.get(self.slot_of(hash, turn))?)?;
        (held.text == text).then_some(held.number)
    }

    // Which texts one of this hash meets.
    #[inline(always)]
    fn meeting_of(&self, hash: u64) -> usize {
        (hash >> 40) as usize & self.slots.len().wrapping_sub(1)
    }

    // The slot for a hash that is turned by so many bits.
    #[inline(always)]
    fn slot_of(&self, hash: u64, turn: u8) -> usize {
        hash.rotate_left(u32::from(turn)) as usize & self.slots.len().wrapping_sub(1)
    }

    // The short texts among these values, those that meet one after the other.
    fn hashed(&self, alloc: Global, values: &[AttrValue]) -> Result<Vec<Hashed>, AllocError> {
        let mut all = Vec::new(alloc);
        for (place, value) in values.iter().enumerate() {
            if let Some(text) = short_text(value) {
                let hash = text.hash();
                let meeting = self.meeting_of(hash);
                all.push(Hashed {
                    place,
                    hash,
                    meeting,
                })?;
            }
        }
        all.sort_by_key(|text| text.meeting)?;
        Ok(all)
    }

    // Puts texts that meet into slots of their own, where they are few.
    fn put_all(&mut self, meeting: &[Hashed], values: &[AttrValue], numbering: &Numbering)
        requires numbers { Numbers numbering.now values.now }
        requires right { All (IsRight values.now) self.old.slots.items }
        ensures { All (IsRight values.now) self.new.slots.items }
    {
        let Some(turn) = self.turn_for(meeting) else {
            return;
        };
        for text in meeting {
            let at = self.slot_of(text.hash, turn);
            if at < self.slots.len()
                && text.meeting < self.turns.len()
                && text.place < values.len()
            {
                self.slots[at] = slot_with(&values[text.place], numbering);
                self.turns[text.meeting] = turn;
            }
        }
    }

    // By how many bits hashes are turned, so that each finds an empty slot of its own.
    fn turn_for(&self, meeting: &[Hashed]) -> Option<u8> {
        if meeting.len() > MOST_MEETING {
            return None;
        }
        (0..64).find(|turn| self.is_apart(meeting, *turn))
    }

    // Whether hashes that are turned by so many bits find empty slots of their own.
    fn is_apart(&self, meeting: &[Hashed], turn: u8) -> bool {
        for place in 0..meeting.len() {
            if !self.is_first_apart(&meeting[place..], turn) {
                return false;
            }
        }
        true
    }

    // Whether the first of these hashes finds an empty slot, which none of the others has.
    fn is_first_apart(&self, meeting: &[Hashed], turn: u8) -> bool {
        let Some((first, others)) = meeting.split_first() else {
            return true;
        };
        let at = self.slot_of(first.hash, turn);
        matches!(self.slots.get(at), Some(None))
            && others
                .iter()
                .all(|other| self.slot_of(other.hash, turn) != at)
    }
}

// A value that is a short text, with its number.
fn slot_with(value: &AttrValue, numbering: &Numbering) -> Option<Numbered>
    ensures { (values : List AttrValue) → Numbers numbering.now values → IsRight values result }
{
    let text = short_text(value)?;
    let number = numbering.number_of(value.as_ref())?;
    Some(Numbered { text, number })
}

// A value as words, where it is a short text.
fn short_text(value: &AttrValue) -> Option<Packed>
    ensures { IfSome result (λ text. value.now ≡ AttrValue.Text (text_of text)) }
{
    match value {
        AttrValue::Text(text) => Packed::of(text.as_str()),
        AttrValue::Whole(_) | AttrValue::Flag(_) => None,
    }
}

// How many slots there are for the short texts among these values: a power of two, and at least two for each.
// None where no text is short.
fn slots_for(values: &[AttrValue]) -> usize
    requires { length values.now ≤ 1000 }
{
    let texts = values
        .iter()
        .filter(|value| short_text(value).is_some())
        .count();
    if texts == 0 {
        return 0;
    }
    (2 * texts).next_power_of_two()
}
