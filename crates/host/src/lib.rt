// What a host program tells its radio: host frames, read and built.
//
// `read` takes a frame apart into the caller's samples and the next host record. `Builder::build` writes
// the frame whose word is due, so that a record left unchanged is wholly sent within eleven builds. Both
// take what they are given: what cannot be read or built is refused, and a refusal changes nothing.
#![tactic(auto)]

ghost use Rattle.std.specs.Prelude.{◌≡◌, ◌≤◌};
ghost use Rattle.wire.specs.Answers.{first};
ghost use Rattle.host.specs.Build.{refusals as unfit, gave as built, build_of, fresh_builder, next_turn};
ghost use Rattle.host.specs.Read.{refusals, gave, read_of};
ghost use Rattle.host_words.specs.Words.{last_word};

use host_record::record::Host;
use host_samples::{read_slots, write_numbers};
use host_turn::{LAST_WORD, out_of_range, put_head};
use host_words::{address, next, reserved};
use wire::control::Control;
use wire::sync::{no_sync, sync_at};
use wire::{Answer, Refusal};

// The address of the word that came, and the record after it.
#[derive(Clone, Copy)]
pub struct Reading {
    pub address: u8,
    pub host: Host,
}

// Reads a host frame: its 252 numbers over the start of audio, its word into the record. Refused for its sync it
// says which byte, and for an unassigned code or bit which one.
pub fn read(frame: &[u8], audio: &mut [i16], host: Host) -> Result<Reading, Refusal>
    ensures { gave host result audio.new ≡ read_of frame.now audio.old host }
{
    refusal(frame, audio.len())?;
    read_slots(&frame[8..], audio);
    let c = Control::of(frame);
    Ok(Reading {
        address: address(c),
        host: next(c, host),
    })
}

// The first refusal that holds of a frame, with room for so many numbers.
pub(crate) fn refusal(frame: &[u8], room: usize) -> Answer
    ensures { result ≡ first (refusals frame.now room) }
{
    if frame.len() != 512 {
        return Err(Refusal::Length);
    }
    if room < 252 {
        return Err(Refusal::ShortBuffer);
    }
    if !sync_at(frame, 0) {
        return Err(no_sync(frame));
    }
    reserved(Control::of(frame))
}

// A host record and the word that is due, 0 to 10. No invariant says so: C lends any turn, and a build refuses it.
#[derive(Clone, Copy)]
pub struct Builder {
    pub host: Host,
    pub turn: u8,
}

impl Builder {
    pub fn fresh() -> Builder
        ensures { result ≡ fresh_builder }
    {
        Builder {
            host: Host::fresh(),
            turn: 0,
        }
    }

    // Writes the frame whose word is the turn's, with the first 252 numbers of audio, and gives the builder whose turn is the next.
    pub fn build(self, audio: &[i16], frame: &mut [u8]) -> Result<Builder, Refusal>
        ensures { built self result frame.new ≡ build_of self audio.now frame.old }
    {
        self.obstacle(audio.len(), frame.len())?;
        put_head(frame, self.turn, self.host);
        write_numbers(&mut frame[8..], audio);
        Ok(Builder {
            turn: turn_after(self.turn),
            ..self
        })
    }

    // The first refusal that holds of a build, with count numbers and room for so many bytes.
    pub(crate) fn obstacle(self, count: usize, room: usize) -> Answer
        ensures { result ≡ first (unfit self count room) }
    {
        if LAST_WORD < self.turn {
            return Err(Refusal::BadState);
        }
        if room != 512 {
            return Err(Refusal::Length);
        }
        if count < 252 {
            return Err(Refusal::ShortBuffer);
        }
        out_of_range(self.host)
    }
}

pub(crate) fn turn_after(turn: u8) -> u8
    requires { turn ≤ last_word }
    ensures { result ≡ next_turn turn }
{
    if turn == LAST_WORD { 0 } else { turn + 1 }
}
