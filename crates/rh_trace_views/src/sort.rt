//! Sorts requests by what their answer is: one line, the trays, a `stat` or a dump.

ghost use Rattle.std.specs.Prelude.{◌≡◌};
ghost use Rattle.rh_trace_views.specs.Views.{sort_of};

use rh_syntax::Request;

/// Of which sort an answer is.
#[derive(Clone, Copy)]
pub(crate) enum Sort {
    /// One line.
    Line,
    /// The trays, a line for each.
    Trays,
    /// The numbers of a heap, in one line.
    Stat,
    /// The lines of a dump.
    Dump,
}

/// Of which sort the answer to a request is.
pub(crate) fn sort_of(request: &Request) -> Sort
    ensures { result ≡ sort_of request.now }
{
    match *request {
        Request::Command { .. } => Sort::Line,
        Request::Begin => Sort::Line,
        Request::Shade { .. } => Sort::Line,
        Request::Deal { .. } => Sort::Line,
        Request::Give { .. } => Sort::Line,
        Request::Join { .. } => Sort::Line,
        Request::Flip => Sort::Line,
        Request::Recall => Sort::Line,
        Request::Abandon => Sort::Line,
        Request::Idle { .. } => Sort::Line,
        Request::Resize { .. } => Sort::Line,
        Request::Tickets { .. } => Sort::Line,
        Request::Watch { .. } => Sort::Line,
        Request::Unwatch { .. } => Sort::Line,
        Request::Gone => Sort::Line,
        Request::Trays => Sort::Trays,
        Request::Stat => Sort::Stat,
        Request::Dump => Sort::Dump,
    }
}
