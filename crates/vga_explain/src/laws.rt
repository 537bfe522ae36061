//! Laws of reasons. Each is a contract of a function that does nothing.
ghost use Rattle.vga_explain.specs.Laws.{ReasonsRefuseOut, ReasonsRefuseInp, ReasonsRefusePut};
ghost use Rattle.vga_explain.specs.Laws.{ReasonsRefuseGet};

/// If a reason holds of a cycle of a byte, the cycle is refused, and with the refusal that the
/// reason explains.
#[tactic(auto, unfolding(vga_card::specs::Cycles::out_reached, vga_card::specs::Cycles::inp_reached))]
pub fn reasons_imply_their_refusals()
    ensures out { ReasonsRefuseOut }
    ensures inp { ReasonsRefuseInp }
    ensures put { ReasonsRefusePut }
    ensures get { ReasonsRefuseGet }
{}
