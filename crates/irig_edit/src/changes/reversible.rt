//! Changes of the present state, turned in place, as the trait `Reversible` asks.

ghost use Rattle.std.specs.Prelude.{ℕ};
ghost use Rattle.irig_edit.specs.Changes.Delta.{Fits, gathered, turned, weight_of};
ghost use Rattle.irig_edit.specs.Changes.Laws.Delta.{Fits-turned, IsState-turned, turned-turned};
ghost use Rattle.irig_edit.specs.Changes.Laws.Groups.{Fits-gathered, turned-gathered};
ghost use Rattle.irig_edit.specs.Changes.Laws.Groups.{weight_of-gathered};
ghost use Rattle.irig_edit.specs.Changes.Looks.{RoseWithin, looks_of};
ghost use Rattle.irig_edit.specs.State.Places.{IsWithin, Places, places_in};
ghost use Rattle.irig_edit.specs.{Changes.Laws.Looks.looks_of-gathered};
ghost use Rattle.irig_edit.specs.{Changes.Laws.Room.HasRoomFor-wider, State.Present.looks_in};
ghost use Rattle.irig_edit.specs.{State.Present.state_in, State.State.State, State.State.IsState};
ghost use Rattle.irig_edit.specs.{Changes.Ample.IsAmpleFor, Changes.Held.delta_of};
ghost use Rattle.irig_edit.specs.{Changes.Laws.Parts.delta_of-group, Changes.Room.HasRoomFor};
ghost use Rattle.irig_saved.specs.declared.change.Change.{Change};

use crate::changes::turn::Turn;
use crate::state::present::Present;
use irig_journal::Reversible;
use std::alloc::AllocError;

impl Reversible for Present {
    type Change = Turn;

    ghost Content = { State };

    ghost Delta = { Change };

    ghost Tally = { ℕ };

    ghost Places = { Places };

    ghost content = { state_in };

    ghost delta = { delta_of };

    ghost tally = { looks_in };

    ghost places = { places_in };

    ghost is_within = { IsWithin };

    ghost is_state = { IsState };

    ghost fits = { Fits };

    ghost turned = { turned };

    ghost counted = { λ s d old new. RoseWithin (looks_of s d) old new };

    ghost has_room = { HasRoomFor };

    ghost is_ample = { IsAmpleFor };

    ghost weighs = { weight_of };

    ghost gathered = { gathered };

    // For the proof alone: the state is lawful.
    fn known(&self) {
        let _track = self.track();
    }

    fn applies(&self, turn: &Turn) -> bool {
        self.allows(&turn.single)
    }

    fn prepare(&mut self, turn: &mut Turn) -> Result<(), AllocError> {
        self.room_for(turn)
    }

    fn turn(&mut self, turn: &mut Turn) {
        self.make_turn(turn);
    }

    fn weight(turn: &Turn) -> u64 {
        turn.held() as u64
    }

    ghost keeps = { λ s d is h. IsState-turned s d is h };

    ghost back_fits = { λ s d is h. Fits-turned s d is h };

    ghost back = { λ s d is h. turned-turned s d is h };

    ghost gathers = { λ ps. delta_of-group ps };

    ghost gathered_fits = { λ s ds _ h. Fits-gathered s ds h };

    ghost gathered_turns = { λ s ds _ h. turned-gathered s ds };

    ghost gathered_holds = { λ ds. weight_of-gathered ds };

    ghost gathered_counts = { λ s ds old new _ _ h. looks_of-gathered s ds old new h };

    ghost wider = { λ a b s c h room. HasRoomFor-wider a b s c h room };
}
