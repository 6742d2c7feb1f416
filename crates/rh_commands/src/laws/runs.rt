//! Laws of how the subcommand `run` ends, by its way: what it writes and its faults.

ghost use Rattle.std.specs.Prelude.{ℕ, List, Option};
ghost use Rattle.rh_trace.specs.Fixed.{FixedEnds};
ghost use Rattle.rh_trace.specs.Run.{run_of};
ghost use Rattle.rh_paced_trace.specs.Ways.{AnswersGrowing, AnswersPaced};
ghost use Rattle.rh_choices.specs.declared.telling.Telling.{Telling as TellingOf};
ghost use Rattle.rh_trace_views.specs.Listening.{ViewsEndFixed, ViewsWriter, written_of};
ghost use Rattle.rh_commands.specs.Runs.{ConcludesBy, ConcludesGrowing, ConcludesPaced, ConcludesRun, ConcludesViewedBy};
ghost use Rattle.rh_commands.specs.ViewLog.{ViewLogState};
ghost use Rattle.rh_commands.specs.Views.{ConcludesView, ConcludesViewGrowing, ConcludesViewPaced};
ghost use Rattle.rh_commands.specs.Ways.{ViewsEndGrowing, ViewsEndPaced};

use crate::laws::viewed::{
    a_viewed_growing_run_ends_as_its_input_says, a_viewed_paced_run_ends_as_its_input_says,
};
use rh_paced_trace::Unpaced;
use rh_paced_trace::laws::ways::{
    a_growing_run_ends_as_its_input_says, a_paced_run_ends_as_its_input_says,
};
use rh_trace::laws::ways::a_fixed_run_ends_as_its_trace;
use rh_trace_views::laws::a_viewed_run_ends_as_its_input_says;

/// A run of which the answers are written concludes as its input says: on a heap of the first line's
/// sizes, at a pace, and on a heap that grows.
pub fn a_run_concludes_as_its_input_says()
    ensures fixed { (input : List ℕ) (status : ℕ) (old new : Option (List ℕ))
        → ConcludesBy (λ outcome. FixedEnds input outcome old new) status
        → ConcludesRun (run_of input) status old new }
    ensures paced { (mark : Option ℕ) (input : List ℕ) (status : ℕ) (old new : Option (List ℕ))
        → ConcludesBy (λ outcome. AnswersPaced mark input outcome old new) status
        → ConcludesPaced mark input status old new }
    ensures growing { (at_most : ℕ) (input : List ℕ) (status : ℕ) (old new : Option (List ℕ))
        → ConcludesBy (λ outcome. AnswersGrowing at_most input outcome old new) status
        → ConcludesGrowing at_most input status old new }
{
    a_fixed_run_ends_as_its_trace::<Unpaced>();
    a_paced_run_ends_as_its_input_says();
    a_growing_run_ends_as_its_input_says();
}

/// So does a viewed run.
pub fn a_viewed_run_concludes_as_its_input_says()
    ensures fixed { (telling : TellingOf) (input : List ℕ) (status : ℕ) (log : ViewLogState)
        (old new : ViewsWriter → Option (List ℕ))
        → ConcludesViewedBy (λ outcome. ViewsEndFixed telling input outcome old new) status log
        → ConcludesView telling input status log (written_of old new) }
    ensures paced { (mark : Option ℕ) (telling : TellingOf) (input : List ℕ) (status : ℕ)
        (log : ViewLogState) (old new : ViewsWriter → Option (List ℕ))
        → ConcludesViewedBy (λ outcome. ViewsEndPaced mark telling input outcome old new) status log
        → ConcludesViewPaced mark telling input status log (written_of old new) }
    ensures growing { (at_most : ℕ) (telling : TellingOf) (input : List ℕ) (status : ℕ)
        (log : ViewLogState) (old new : ViewsWriter → Option (List ℕ))
        → ConcludesViewedBy (λ outcome. ViewsEndGrowing at_most telling input outcome old new)
        status log
        → ConcludesViewGrowing at_most telling input status log (written_of old new) }
{
    a_viewed_run_ends_as_its_input_says::<Unpaced>();
    a_viewed_paced_run_ends_as_its_input_says();
    a_viewed_growing_run_ends_as_its_input_says();
}
