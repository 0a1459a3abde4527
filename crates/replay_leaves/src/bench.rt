// What requests share, and the answer to any request.
use crate::palettes::Palettes;
use crate::pictures::Pictures;
use crate::plain;
use hardware::Machine;
use sprite::SelectedSprite;
use wire::Answers;

// OAM, the slots of the last pick, the palettes and the pictures.
#[derive(Drop)]
pub struct Bench {
    oam: [u8; Machine::OAM_BYTES],
    slots: [SelectedSprite; 10],
    palettes: Palettes,
    pictures: Pictures,
}

impl Bench {
    // OAM is 0, nothing is picked, and both pictures are white.
    pub fn fresh() -> Self {
        Bench {
            oam: [0; Machine::OAM_BYTES],
            slots: sprite::blank(),
            palettes: Palettes::fresh(),
            pictures: Pictures::white(),
        }
    }

    // Writes a byte of OAM.
    fn write_oam(&mut self, address: u8, value: u8) -> [u8; 8] {
        match self.oam.get_mut(usize::from(address)) {
            Some(byte) => {
                *byte = value;
                [0; 8]
            }
            None => wire::padded(&[4]),
        }
    }

    // A pick: its slots are kept, empty ones where it is refused. `replay` has one of its own, of the face and not of the leaf.
    fn pick(&mut self, line: u8, tall: u8) -> [u8; 8] {
        self.slots = sprite::blank();
        match sprite::pick(&self.oam, line, tall) {
            Ok(selection) => {
                // By a local: an array that goes straight from one field to another gets no proof.
                let slots = selection.slots;
                self.slots = slots;
                wire::padded(&[0, selection.count])
            }
            Err(why) => wire::padded(&[why.number()]),
        }
    }

    // Slot k of the last pick, modulo 10.
    fn slot(&self, k: u8) -> [u8; 8] {
        wire::padded(&self.slots[usize::from(k % 10)].to_bytes())
    }
}

impl Answers<8> for Bench {
    // A request's first byte is its kind. The numbers are the list's own format: an enum between would name each of them once more.
    fn answer(&mut self, q: [u8; 8]) -> [u8; 8] {
        match q[0] {
            5 => self.write_oam(q[1], q[2]),
            6 => self.pick(q[1], q[2]),
            7 => self.slot(q[1]),
            11..=16 => self.palettes.answer(q),
            18..=22 => self.pictures.answer(q),
            _ => plain::answer(q),
        }
    }
}
