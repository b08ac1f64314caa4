//! From event to event of a walk: an element is entered before what is below it, and left after.
ghost use Rattle.std.specs.Prelude.{◌≡◌, ◌∷◌, true, Some};
ghost use Rattle.rowan_green.specs.WalkEvent.{event_value};
ghost use Rattle.rowan_table.specs.Events.{NextStays, LeavesNoToken, behind_path, event_of};
ghost use Rattle.rowan_table.specs.Events.{remaining_events};
ghost use Rattle.rowan_table.specs.TablePass.{StandsInside};
ghost use Rattle.rowan_table.specs.TableView.{root_of, path_at, stands_for_node};

use super::Table;
use rowan_green::utility_types::WalkEvent;

impl Table {
    /// The event that comes after another one, in a walk from a start.
    pub fn event_after(&self, event: WalkEvent<usize>, start: usize) -> Option<WalkEvent<usize>>
        requires { StandsInside self.now start (event_value event) }
        ensures next { remaining_events self.now start (Some event)
            ≡ event_of self.now event ∷ remaining_events self.now start result }
        ensures inside { NextStays self.now start result }
        ensures node { stands_for_node self.now (event_value event) ≡ true
            → LeavesNoToken self.now result }
    {
        match event {
            WalkEvent::Enter(number) => match self.first_child_or_token(number) {
                Some(child) => Some(WalkEvent::Enter(child)),
                None => Some(WalkEvent::Leave(number)),
            },
            WalkEvent::Leave(number) => self.event_behind(number, start),
        }
    }

    // The event that comes after an element was left.
    fn event_behind(&self, number: usize, start: usize) -> Option<WalkEvent<usize>>
        requires { StandsInside self.now start number }
        ensures next { remaining_events self.now start result
            ≡ behind_path (root_of self.now) (path_at self.now start) (path_at self.now number) }
        ensures inside { NextStays self.now start result }
        ensures node { LeavesNoToken self.now result }
    {
        if number == start {
            return None;
        }
        match self.next_sibling_or_token(number) {
            Some(sibling) => Some(WalkEvent::Enter(sibling)),
            None => Some(WalkEvent::Leave(self.parent(number)?)),
        }
    }
}
