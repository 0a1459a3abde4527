// The picture unit of a capture: its state and the memory that it is lent.
use crate::trouble::Trouble;
use captures::Bytes;
use hardware::Machine;
use state::State;
use step::Report;

// VRAM, OAM and the two pictures, and the state, of which there is none before the start.
#[derive(Drop)]
pub struct Unit {
    state: Option<State>,
    vram: [u8; Machine::VRAM_BYTES],
    oam: [u8; Machine::OAM_BYTES],
    a: [u8; Machine::PICTURE_BYTES],
    b: [u8; Machine::PICTURE_BYTES],
}

impl Unit {
    pub fn new() -> Unit {
        Unit {
            state: None,
            vram: [0; Machine::VRAM_BYTES],
            oam: [0; Machine::OAM_BYTES],
            a: [255; Machine::PICTURE_BYTES],
            b: [255; Machine::PICTURE_BYTES],
        }
    }

    // The start, which a capture has once.
    pub fn start(&mut self, machine: Machine) -> Result<(), Trouble> {
        if self.state.is_some() {
            return Err(Trouble::StartedAgain);
        }
        let started = ppu::start(
            machine,
            &mut self.vram,
            &mut self.oam,
            &mut self.a,
            &mut self.b,
        );
        self.state = Some(started.map_err(|refused| refused.why)?);
        Ok(())
    }

    pub fn write_register(&mut self, address: u16, value: u8) -> Result<(), Trouble> {
        let state = self.state.as_mut().ok_or(Trouble::NotStarted)?;
        Ok(ppu::write_register(state, &mut self.a, &mut self.b, address, value)?)
    }

    pub fn write_vram(&mut self, address: u16, value: u8) -> Result<(), Trouble> {
        let state = self.state.as_ref().ok_or(Trouble::NotStarted)?;
        Ok(ppu::write_vram(state, &mut self.vram, address, value)?)
    }

    pub fn write_oam(&mut self, address: u16, value: u8) -> Result<(), Trouble> {
        self.state.as_ref().ok_or(Trouble::NotStarted)?;
        Ok(ppu::write_oam(&mut self.oam, address, value)?)
    }

    // Writes the bytes as often as they are to be written, the highest first and each one address further.
    pub fn write_bytes<F: Fn(&mut Unit, u16, u8) -> Result<(), Trouble>>(
        &mut self,
        bytes: Bytes,
        write: F,
    ) -> Result<(), Trouble>
        requires { F.IsAlwaysCallable write }
    {
        let all = bytes.bytes.to_be_bytes();
        let count = usize::from(bytes.count).min(8);
        // The range says how often; the address is counted by hand, since behind the last comes the first, which no range has.
        let mut at = bytes.address;
        for _ in 0..bytes.times {
            for byte in &all[8 - count..] {
                write(self, at, *byte)?;
                at = at.wrapping_add(1);
            }
        }
        Ok(())
    }

    pub fn step(&mut self, cycles: u8) -> Result<Report, Trouble> {
        let state = self.state.as_mut().ok_or(Trouble::NotStarted)?;
        Ok(ppu::step(
            state,
            &self.vram,
            &self.oam,
            &mut self.a,
            &mut self.b,
            cycles,
        )?)
    }

    // A kind by its number, as a `captures::Call` has it.
    pub fn corrupt(&mut self, kind: u8) -> Result<(), Trouble> {
        let state = self.state.as_ref().ok_or(Trouble::NotStarted)?;
        Ok(ppu::oam_bug(state, &mut self.oam, kind)?)
    }

    pub fn set_colour(&mut self, on: bool) -> Result<(), Trouble> {
        let state = self.state.as_mut().ok_or(Trouble::NotStarted)?;
        Ok(ppu::set_colour(state, on)?)
    }

    // The picture that is shown: none before the start.
    pub fn shown(&self) -> &[u8] {
        match &self.state {
            Some(state) => ppu::screen_buffer(state, &self.a, &self.b),
            None => &[],
        }
    }
}
