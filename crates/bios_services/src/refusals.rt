//! Why a service is refused.
ghost use Rattle.std.specs.Prelude.{◌≡◌, ◌⊎◌, IfErr};
ghost use Rattle.bios_services.specs.Bounds.{IsModeSet, page_count};
ghost use Rattle.bios_services.specs.CallReasons.{refusal_of, refusal_of_outcome, ExplainsBesidesBlock};
ghost use Rattle.bios_services.specs.CallReasons.{ExplainsService, IsNoModeSet, IsNoPixel, IsNoService};
ghost use Rattle.bios_services.specs.Reasons.{◌or◌, refuse_unless_graphics_mode as no_pixels_of};
ghost use Rattle.bios_services.specs.Reasons.{no_page as no_page_of, outside_pixels as outside_pixels_of};
ghost use Rattle.bios_services.specs.Pixels.{pixels_across as pixels_across_of, pixels_down as pixels_down_of};
ghost use Rattle.bios_services.specs.Refusals.{page_or_0_in_mode_of_one_page as page_meant_by_number_of};
ghost use Rattle.bios_services.specs.Refusals.{refusal_in_mode_besides_block as reason_in_mode_of};
ghost use Rattle.bios_services.specs.Refusals.{refusal_in_mode as refusal_in_mode_of};
ghost use Rattle.bios_services.specs.Refusals.{refusal_of_unknown_call as unknown_refusal_of};

use crate::call::Service;
use crate::call_reason::CallReason;
use crate::cell_run::CellRun;
use crate::cells::cells;
use crate::colours::colour_refusal_besides_block;
use crate::cursor::cursor_cell_number;
use crate::pixels::{pixels_across, pixels_down};
use crate::reasons::{
    no_page, outside_cells, outside_page, outside_pixels, past_cells, refuse_or_wrong_block,
    refuse_unless_graphics_mode,
};
use crate::regs::{Regs, high, low};
use crate::strings::StringCall;
use bios_modes::{Bda, mode_row_at_height};

/// How many pages the mode has, in text at the height of its characters.
fn pages(bda: &Bda) -> u8
    ensures { result ≡ page_count bda.now }
{
    match mode_row_at_height(bda.mode(), bda.height()) {
        Some(row) => row.pages,
        None => 0,
    }
}

/// The page that a number means: in a mode of one page, any number means page 0.
fn page_or_0_in_mode_of_one_page(bda: &Bda, page: u8) -> u8
    ensures { result ≡ page_meant_by_number_of bda.now page }
{
    if pages(bda) == 1 { 0 } else { page }
}

impl Service {
    ghost use Rattle.bios_services.specs.Refusals.{service_block_len};
    ghost use Rattle.bios_services.specs.Refusals.{service_with_page_or_0_if_only_one as on_page_named_of};

    /// How many bytes the block of a service has, if it reads one.
    pub(crate) fn block(self) -> Option<usize>
        ensures { result ≡ service_block_len self }
    {
        match self {
            Service::Colours(colours) => colours.block(),
            Service::WriteString(string) => Some(string.block_len()),
            _ => None,
        }
    }

    /// The service with the page that its number means.
    pub(crate) fn service_with_page_or_0_if_only_one(self, bda: &Bda) -> Service
        ensures { result ≡ on_page_named_of bda.now self }
    {
        match self {
            Service::SetCursor { page, position } => {
                let page = page_or_0_in_mode_of_one_page(bda, page);
                Service::SetCursor { page, position }
            }
            Service::ReadCursor { page } => Service::ReadCursor {
                page: page_or_0_in_mode_of_one_page(bda, page),
            },
            Service::ReadCell { page } => Service::ReadCell {
                page: page_or_0_in_mode_of_one_page(bda, page),
            },
            Service::WriteCells(run) => {
                let page = page_or_0_in_mode_of_one_page(bda, run.page);
                Service::WriteCells(CellRun { page, ..run })
            }
            Service::WritePixel { page, x, y, colour } => {
                let page = page_or_0_in_mode_of_one_page(bda, page);
                Service::WritePixel { page, x, y, colour }
            }
            Service::ReadPixel { page, x, y } => {
                let page = page_or_0_in_mode_of_one_page(bda, page);
                Service::ReadPixel { page, x, y }
            }
            Service::WriteString(string) => {
                let page = page_or_0_in_mode_of_one_page(bda, string.page);
                Service::WriteString(StringCall { page, ..string })
            }
            _ => self,
        }
    }
}

/// Refuses a pixel of a page, for the first of the reasons.
fn no_pixel(bda: &Bda, page: u8, x: u16, y: u16) -> Result<(), CallReason>
    requires { IsModeSet bda.now }
    ensures refusal { refusal_of_outcome result ≡ (no_pixels_of bda.now.mode
        or no_page_of (page_count bda.now) page
        or outside_pixels_of (pixels_across_of bda.now) (pixels_down_of bda.now) x y) }
    ensures reason { IfErr result (IsNoPixel bda.now page x y) }
{
    refuse_unless_graphics_mode(bda.mode())?;
    no_page(pages(bda), page)?;
    outside_pixels(pixels_across(bda), pixels_down(bda), x, y)
}

/// Refuses a service in a mode, whatever its block, for the first of its reasons.
fn refusal_in_mode_besides_block(service: Service, bda: &Bda) -> Result<(), CallReason>
    requires { IsModeSet bda.now }
    ensures refusal { refusal_of_outcome result ≡ reason_in_mode_of service bda.now }
    ensures reason { IfErr result (ExplainsBesidesBlock service bda.now) }
{
    let rows = bda.last_row() as u16 + 1;
    match service {
        Service::SetCursor { page, .. } => no_page(pages(bda), page),
        Service::ReadCursor { page } => no_page(pages(bda), page),
        Service::SelectPage { page } => no_page(pages(bda), page),
        Service::ReadCell { page } => {
            no_page(pages(bda), page)?;
            outside_cells(cells(bda), page, cursor_cell_number(bda, page))
        }
        Service::WriteCells(run) => {
            no_page(pages(bda), run.page)?;
            outside_cells(cells(bda), run.page, cursor_cell_number(bda, run.page))?;
            past_cells(cells(bda), cursor_cell_number(bda, run.page), run.count)
        }
        Service::WritePixel { page, x, y, .. } => no_pixel(bda, page, x, y),
        Service::ReadPixel { page, x, y } => no_pixel(bda, page, x, y),
        Service::Teletype { .. } => {
            outside_page(rows, bda.columns(), bda.cursor_place(bda.page() as usize))
        }
        Service::WriteString(string) => {
            no_page(pages(bda), string.page)?;
            outside_page(rows, bda.columns(), string.position)
        }
        Service::Colours(service) => colour_refusal_besides_block(service),
        Service::SetCursorType { .. }
        | Service::ScrollUp { .. }
        | Service::ScrollDown { .. }
        | Service::ReadMode
        | Service::ReadAdapter
        | Service::ReadDisplay => Ok(()),
    }
}

/// Refuses a service in a mode, with a block of this length, for the first of its reasons.
#[tactic(auto, unfolding(crate::specs::Refusals::refusal_in_mode))]
pub(crate) fn refusal_in_mode(service: Service, bda: &Bda, len: usize) -> Result<(), CallReason>
    requires { IsModeSet bda.now }
    ensures refusal { refusal_of_outcome result ≡ refusal_in_mode_of service bda.now len }
    ensures reason { IfErr result (ExplainsService service bda.now len) }
{
    refuse_or_wrong_block(
        refusal_in_mode_besides_block(service, bda),
        service.block(),
        len,
    )
}

/// Why a call that asks for no service is refused.
pub(crate) fn reason_of_unknown_call(bda: &Bda, regs: Regs) -> CallReason
    ensures refusal { refusal_of result ≡ unknown_refusal_of bda.now }
    ensures reason { ((bda.now.mode ≡ 0) × IsNoModeSet regs result)
        ⊎ (¬ (bda.now.mode ≡ 0) × IsNoService regs result) }
{
    let function = high(regs.ax);
    if bda.mode() == 0 {
        CallReason::NoModeSet { function }
    } else {
        CallReason::NoService {
            function,
            al: low(regs.ax),
            bl: low(regs.bx),
        }
    }
}
