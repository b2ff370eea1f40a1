// The wire.
ghost use Rattle.std.specs.Prelude.{◌≡◌, ◌<◌, [], ◌∷◌, ◌++◌, Some, slice_get, length, OnOk, IfOk};
ghost use Rattle.net_core.specs.Parts.{without};
ghost use Rattle.lossy_link.specs.FrameFormat.{CarriesMessage, IsSpelledFrame};
ghost use Rattle.lossy_link.specs.inside.Queue.{frame_in, IsRepeated};

use crate::frame::Frame;
use crate::reading::{frame_bytes, frame_spelled};
use chem_model::{Memory, Text};
use std::alloc::Global;
use std::collections::VecDeque;
use std::marker::Model;

// The spellings of the frames that are on their way, in order.
#[derive(Drop)]
pub(crate) struct Wire {
    texts: VecDeque<Text>,
}

impl Model for Wire {
    ghost use Rattle.std.specs.Prelude.{List, map};
    ghost use Rattle.lossy_link.specs.declared.frame.Frame.{Frame};
    ghost use Rattle.lossy_link.specs.inside.Queue.{frame_in, AreFrames};

    ghost Value = { List Frame };

    ghost view = { λ w. map frame_in w.texts.items };

    ghost invariant = { λ w. AreFrames w.texts.items };
}

impl Wire {
    // Nothing is on the wire.
    pub(crate) fn new(alloc: Global) -> Wire
        ensures { result ≡ [] }
    {
        Wire {
            texts: VecDeque::new(alloc),
        }
    }

    // How many frames are on the wire.
    pub(crate) fn len(&self) -> u32
        ensures { result ≡ length self.now }
    {
        self.texts.len() as u32
    }

    // A spelling is put last.
    fn push(&mut self, text: Text) -> Result<(), Memory>
        requires { IsSpelledFrame (frame_in text) text }
        ensures { OnOk result (self.new ≡ self.old ++ frame_in text ∷ []) }
    {
        if self.texts.len() >= u32::MAX as usize {
            return Err(Memory);
        }
        self.texts.push_back(text)?;
        Ok(())
    }

    // A frame is put last.
    pub(crate) fn put(&mut self, alloc: Global, frame: &Frame) -> Result<(), Memory>
        requires { CarriesMessage frame.now }
        ensures { OnOk result (self.new ≡ self.old ++ frame.now ∷ []) }
    {
        let text = frame_bytes(alloc, frame)?;
        self.push(text)
    }

    // The frame at this place is taken off the wire.
    pub(crate) fn take(&mut self, alloc: Global, place: u32) -> Result<Frame, Memory>
        requires { place < length self.old }
        ensures is { IfOk result (λ x. slice_get self.old place ≡ Some x) }
        ensures left { OnOk result (self.new ≡ without place self.old) }
    {
        match self.texts.remove(place as usize) {
            Some(text) => frame_spelled(alloc, text.as_slice()),
            None => unreachable!(),
        }
    }

    // It is lost.
    pub(crate) fn lose(&mut self, place: u32)
        requires { place < length self.old }
        ensures { self.new ≡ without place self.old }
    {
        let _lost = self.texts.remove(place as usize);
    }

    // A copy of the spelling at this place.
    fn copy_at(&self, alloc: Global, place: u32) -> Result<Text, Memory>
        requires { place < length self.now }
        ensures at { IfOk result (λ text. slice_get self.now place ≡ Some (frame_in text)) }
        ensures spelled { IfOk result (λ text. IsSpelledFrame (frame_in text) text) }
    {
        match self.texts.get(place as usize) {
            Some(text) => text.copy(alloc),
            None => unreachable!(),
        }
    }

    // A copy of the frame at this place is put last.
    pub(crate) fn repeat(&mut self, alloc: Global, place: u32) -> Result<(), Memory>
        requires { place < length self.old }
        ensures { OnOk result (IsRepeated self.old place self.new) }
    {
        let text = self.copy_at(alloc, place)?;
        self.push(text)
    }
}
