//! Laws of the statuses of the calls for C that read a trace. Each function does nothing: its
//! contract is the law.

ghost use Rattle.std.specs.Prelude.{◌≡◌, ◌↔◌, ◌⊎◌, ◌<◌, ◌≤◌, ℕ, List, length};
ghost use Rattle.rh_trace.specs.declared.way_fault.WayFault.{WayFault as WayFaultOf};
ghost use Rattle.rh_paced_trace.specs.declared.fault.Unpaced.{Unpaced as UnpacedOf};
ghost use Rattle.rheap_c_traces.specs.Told.{AnswersText, run_status};

/// Of a run that gave a text, 0 says that the buffer has room for it, and 5 that it hasn't.
pub fn statuses_0_and_5_say_whether_there_is_room()
    ensures done { (text old new : List ℕ) (status count : ℕ)
        → AnswersText text status old new count → (status ≡ 0) ↔ (length text ≤ length old) }
    ensures no_room { (text old new : List ℕ) (status count : ℕ)
        → AnswersText text status old new count → (status ≡ 5) ↔ (length old < length text) }
{}

/// Of a run that gave none, 3 says that a read failed, a write failed or memory was refused. 1 says
/// what else may be: a fault of the trace, or sizes for which there is no heap or no pace.
pub fn statuses_1_and_3_say_why_there_is_no_text()
    ensures failed { (fault : WayFaultOf UnpacedOf) → (run_status fault ≡ 3)
        ↔ ((fault ≡ WayFaultOf.Read) ⊎ ((fault ≡ WayFaultOf.Write)
        ⊎ (fault ≡ WayFaultOf.OutOfMemory))) }
    ensures faulty { (fault : WayFaultOf UnpacedOf)
        → (run_status fault ≡ 1) ⊎ (run_status fault ≡ 3) }
{}
