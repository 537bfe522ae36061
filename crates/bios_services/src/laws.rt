//! Laws of the services. Each is a contract of a function that does nothing.
ghost use Rattle.std.specs.Prelude.{◌≡◌, ◌<◌, ℕ, List};
ghost use Rattle.vga_card.specs.Bounds.{IsCard};
ghost use Rattle.vga_card.specs.Bus.{card_meaning};
ghost use Rattle.vga_card.specs.Card.{CardState};
ghost use Rattle.vga_card.specs.FreshCanvas.{without_dots_of_ended_frame, outcome_without_dots_of_ended_frame};
ghost use Rattle.bios_modes.specs.Bda.{BiosData, power_on_data};
ghost use Rattle.bios_modes.specs.Fonts.{FontSet};
ghost use Rattle.bios_services.specs.declared.regs.Regs.{Regs};
ghost use Rattle.bios_services.specs.Data.{AreValidData};
ghost use Rattle.bios_services.specs.Plan.{run};
ghost use Rattle.bios_services.specs.Service.{service, RefusedCallsDoNothing};
ghost use Rattle.bios_services.specs.CallReasons.{CallsEndByTheirRefusals};
ghost use Rattle.bios_services.specs.Blocks.{FittingBlocksAreAccepted, OtherBlockLengthsAreRefused};

use vga_card::Bus;

/// A refused service leaves the bus, whichever it is, and the BIOS data.
pub fn refused_services_do_nothing<B: Bus>()
    ensures { RefusedCallsDoNothing B.meaning }
{}

/// Every call answers its refusal, or, if it has none, registers and a table.
pub fn calls_end_by_their_refusals<B: Bus>()
    ensures { CallsEndByTheirRefusals B.meaning }
{}

/// No call is refused for a block of exactly the length that it reads; and a call that reads some
/// bytes is refused with a block of any other length.
pub fn calls_accept_only_blocks_that_fit<B: Bus>()
    ensures fit { FittingBlocksAreAccepted B.meaning }
    ensures others { OtherBlockLengthsAreRefused B.meaning }
{}

/// BIOS data are valid, and their cursor positions words, at power-on and after every call; and
/// every call keeps the bounds of the adapter's parts.
pub fn calls_keep_bounds()
    ensures first { AreValidData power_on_data }
    ensures card { (fonts : FontSet) (d : BiosData) (r : Regs) (block : List ℕ) (c : CardState) →
        IsCard c → IsCard (run card_meaning (service fonts d r block) c).0 }
    ensures bda { (fonts : FontSet) (d : BiosData) (r : Regs) (block : List ℕ) (c : CardState) →
        r.dx < 65536 → AreValidData d → AreValidData (run card_meaning (service fonts d r block)
        c).1.1 }
{}

/// No call draws or removes a dot: what is drawn of a frame stays.
pub fn calls_draw_nothing()
    ensures { (fonts : FontSet) (d : BiosData) (r : Regs) (block : List ℕ) (c : CardState) →
        (run card_meaning (service fonts d r block) c).0.drawn ≡ c.drawn }
{}

/// No call distinguishes an adapter that was saved and restored from the original: it answers the
/// same, and leaves the same except for what is not saved.
pub fn calls_treat_restored_cards_alike()
    ensures { (fonts : FontSet) (d : BiosData) (r : Regs) (block : List ℕ) (c : CardState) →
        run card_meaning (service fonts d r block) (without_dots_of_ended_frame c)
        ≡ outcome_without_dots_of_ended_frame (run card_meaning (service fonts d r block) c) }
{}
