//! What holds of all code. No code is run here: each function carries a law in its contract.
ghost use Rattle.isp_verify.specs.Accepted.{AcceptedIsFine, FineIsAccepted};

/// Code has no fault if each header fits, each instruction has its operands, there and of their types,
/// and the last instruction of each function is a jump or a return.
pub fn fine_code_is_accepted()
    ensures { FineIsAccepted }
{}

/// And code without a fault is such code.
pub fn accepted_code_is_fine()
    ensures { AcceptedIsFine }
{}
