// What requests share, and the answer to any request: every call of the picture unit.
use hardware::Machine;
use ppu::Refused;
use refusals::Refusal;
use sprite::SelectedSprite;
use state::State;
use wire::{Answers, Digest};

// The state with all that it is lent, and the slots of the last pick.
#[derive(Drop)]
pub struct Desk {
    state: State,
    vram: [u8; Machine::VRAM_BYTES],
    oam: [u8; Machine::OAM_BYTES],
    a: [u8; Machine::PICTURE_BYTES],
    b: [u8; Machine::PICTURE_BYTES],
    slots: [SelectedSprite; 10],
}

// The answer to a request whose call is not refused.
type Answer = Result<[u8; 16], Refusal>;

// A digest, in the second half of an answer.
fn digested(digest: Digest) -> [u8; 16] {
    let mut answer = [0; 16];
    answer[8..].copy_from_slice(&digest.to_bytes());
    answer
}

// Bytes 1 and 2 of a request.
fn address_of(q: [u8; 8]) -> u16 {
    u16::from_le_bytes([q[1], q[2]])
}

// The picture that is not shown, by the number that docs/01-scope.md has for the shown one.
fn hidden<'a>(shown: u8, a: &'a [u8], b: &'a [u8]) -> &'a [u8] {
    if shown == 0 { b } else { a }
}

impl Desk {
    // A device that is not DMG, outside colour mode: VRAM and OAM 0, both pictures white. Nothing is picked.
    pub fn fresh() -> Self {
        let machine = Machine {
            dmg: false,
            cgb: false,
        };
        let mut vram = [0; Machine::VRAM_BYTES];
        let mut oam = [0; Machine::OAM_BYTES];
        let mut a = [0; Machine::PICTURE_BYTES];
        let mut b = [0; Machine::PICTURE_BYTES];
        let started = ppu::start(machine, &mut vram, &mut oam, &mut a, &mut b);
        Desk {
            state: started.unwrap_or_else(|refused| refused.state),
            vram,
            oam,
            a,
            b,
            slots: sprite::blank(),
        }
    }

    // A start of the machine that a request names.
    fn start(&mut self, dmg: bool, cgb: bool) -> Answer {
        let machine = Machine { dmg, cgb };
        let started = ppu::start(
            machine,
            &mut self.vram,
            &mut self.oam,
            &mut self.a,
            &mut self.b,
        );
        match started {
            Ok(state) => {
                self.state = state;
                Ok([0; 16])
            }
            Err(Refused { why, state }) => {
                self.state = state;
                Err(why)
            }
        }
    }

    // A step, and its report.
    fn step(&mut self, cycles: u8) -> Answer {
        let r = ppu::step(
            &mut self.state,
            &self.vram,
            &self.oam,
            &mut self.a,
            &mut self.b,
            cycles,
        )?;
        let [low, high] = r.count.to_le_bytes();
        Ok(wire::padded(&[
            0,
            r.requests,
            r.mode,
            u8::from(r.coincidence),
            r.ly,
            u8::from(r.swapped),
            r.mark.number(),
            0,
            low,
            high,
        ]))
    }

    fn write_register(&mut self, q: [u8; 8]) -> Answer {
        ppu::write_register(
            &mut self.state,
            &mut self.a,
            &mut self.b,
            address_of(q),
            q[3],
        )?;
        Ok([0; 16])
    }

    fn read_register(&self, q: [u8; 8]) -> Answer {
        let value = ppu::read_register(&self.state, address_of(q))?;
        Ok(wire::padded(&[0, value]))
    }

    fn write_vram(&mut self, q: [u8; 8]) -> Answer {
        ppu::write_vram(&self.state, &mut self.vram, address_of(q), q[3])?;
        Ok([0; 16])
    }

    fn write_oam(&mut self, q: [u8; 8]) -> Answer {
        ppu::write_oam(&mut self.oam, address_of(q), q[3])?;
        Ok([0; 16])
    }

    fn locked_write_vram(&mut self, q: [u8; 8]) -> Answer {
        ppu::locked_write_vram(&self.state, &mut self.vram, address_of(q), q[3])?;
        Ok([0; 16])
    }

    fn locked_read_vram(&self, q: [u8; 8]) -> Answer {
        let value = ppu::locked_read_vram(&self.state, &self.vram, address_of(q))?;
        Ok(wire::padded(&[0, value]))
    }

    fn locked_write_oam(&mut self, q: [u8; 8]) -> Answer {
        ppu::locked_write_oam(&self.state, &mut self.oam, address_of(q), q[3])?;
        Ok([0; 16])
    }

    fn locked_read_oam(&self, q: [u8; 8]) -> Answer {
        let value = ppu::locked_read_oam(&self.state, &self.oam, address_of(q))?;
        Ok(wire::padded(&[0, value]))
    }

    fn set_colour(&mut self, flag: bool) -> Answer {
        ppu::set_colour(&mut self.state, flag)?;
        Ok([0; 16])
    }

    // A corruption of OAM, by its kind's number: a request can have any, and one of no kind is refused.
    fn oam_bug(&mut self, kind: u8) -> Answer {
        ppu::oam_bug(&self.state, &mut self.oam, kind)?;
        Ok([0; 16])
    }

    // The shown picture, the other one, OAM, VRAM.
    fn memory(&self) -> Digest {
        Digest::new()
            .bytes(ppu::screen_buffer(&self.state, &self.a, &self.b))
            .bytes(hidden(self.state.beam.shown, &self.a, &self.b))
            .bytes(&self.oam)
            .bytes(&self.vram)
    }

    // A pick: its slots are kept, empty ones where it is refused. `replay_leaves` has one of its own, of the leaf and not of the face.
    fn pick(&mut self, line: u8, tall: u8) -> Answer {
        self.slots = sprite::blank();
        let selection = ppu::pick(&self.oam, line, tall)?;
        // By a local: an array that goes straight from one field to another gets no proof.
        let slots = selection.slots;
        self.slots = slots;
        Ok(wire::padded(&[0, selection.count]))
    }

    // Slot k of the last pick.
    fn slot(&self, k: u8) -> [u8; 16] {
        match self.slots.get(usize::from(k)) {
            Some(slot) => {
                let [index, y, x, tile, flags] = slot.to_bytes();
                wire::padded(&[0, index, y, x, tile, flags])
            }
            None => wire::padded(&[255]),
        }
    }

    // Where the beam stands, the mode by its number, which the answer has, and the cycle at which mode 3 ended.
    fn look(&self) -> [u8; 16] {
        let beam = self.state.beam;
        let [cycle_low, cycle_high] = beam.cycle.to_le_bytes();
        let [end_low, end_high] = beam.end.to_le_bytes();
        let mode = self.state.regs.stat % 4;
        wire::padded(&[
            0, beam.line, cycle_low, cycle_high, beam.x, mode, end_low, end_high,
        ])
    }

    // Makes the call that a request asks for. Its first byte is the kind: the numbers are the list's own format, and an enum between
    // would name each of them once more.
    fn call(&mut self, q: [u8; 8]) -> Answer {
        match q[0] {
            1 => self.start(q[1] != 0, q[2] != 0),
            2 => self.step(q[1]),
            3 => self.write_register(q),
            4 => self.read_register(q),
            5 => self.write_vram(q),
            6 => self.write_oam(q),
            7 => self.set_colour(q[1] != 0),
            8 => self.oam_bug(q[1]),
            11 => Ok(digested(self.memory())),
            12 => Ok(digested(canon::digest_of(&self.state))),
            13 => self.pick(q[1], q[2]),
            14 => Ok(self.slot(q[1])),
            15 => Ok(self.look()),
            16 => self.locked_write_vram(q),
            17 => self.locked_read_vram(q),
            18 => self.locked_write_oam(q),
            19 => self.locked_read_oam(q),
            _ => Ok(wire::padded(&[255])),
        }
    }
}

impl Answers<16> for Desk {
    // A refused call answers its number.
    fn answer(&mut self, q: [u8; 8]) -> [u8; 16] {
        self.call(q)
            .unwrap_or_else(|why| wire::padded(&[why.number()]))
    }
}
