//! The last request of each actor, with the number of its text: most bricks are asked alike, one after another.
ghost use Rattle.std.specs.Prelude.{◌≡◌, ◌++◌, All, IfOk, OnOk};
ghost use Rattle.afr_report_trace.specs.Endings.{ending_text};
ghost use Rattle.afr_report_trace.specs.Requests.{request_text};
ghost use Rattle.afr_report_trace.specs.Texts.{Grows, IsSpelled, IsText};

use crate::endings::{LineEnding, push_ending};
use crate::repeats::{is_asked_of_all, is_repeated};
use crate::requests::push_request;
use crate::texts::{SLOTS, Texts, number_of};
use afr_base::{ACTORS, ActorId, NoMemory};
use afr_lines::Request;
use afr_plan::Plan;
use std::alloc::Global;

/// A request that was spelled, with its answer and the number of the text of both.
#[derive(Clone, Copy)]
pub(crate) struct Spelled {
    pub(crate) request: Request,
    pub(crate) ending: LineEnding,
    pub(crate) number: u32,
}

/// What is kept from a line to the next.
#[derive(Drop)]
pub(crate) struct Page {
    /// Where a text is spelled.
    pub(crate) words: String,
    /// For each hash the number of a text that has it.
    pub(crate) slots: Vec<u32>,
    /// The last request of each actor of a volume.
    pub(crate) places: Vec<Spelled>,
}

impl Page {
    /// A page with one request for each actor, which nobody asked.
    pub(crate) fn new(alloc: Global, texts: &mut Texts, plan: &Plan) -> Result<Page, NoMemory>
        ensures grown { OnOk result (Grows texts.old texts.new) }
        ensures places { IfOk result (λ page. All (IsSpelled plan.now texts.new) page.places.items) }
    {
        let mut slots = Vec::new(alloc);
        slots.resize(SLOTS, 0)?;
        let mut page = Page {
            words: String::new(alloc),
            slots,
            places: Vec::new(alloc),
        };
        let request = Request::Index;
        let ending = LineEnding::Given;
        let number = spell(texts, &mut page, plan, &request, ending)?;
        let spelled = Spelled {
            request,
            ending,
            number,
        };
        page.places.resize(ACTORS, spelled)?;
        Ok(page)
    }
}

/// The number of the text of a request and its end. Those that the actor had last are not spelled anew.
pub(crate) fn number_asked(
    texts: &mut Texts,
    page: &mut Page,
    plan: &Plan,
    actor: ActorId,
    request: &Request,
    ending: LineEnding,
) -> Result<u32, NoMemory>
    requires { All (IsSpelled plan.now texts.old) page.old.places.items }
    ensures text { IfOk result (λ number. IsText texts.new number (request_text plan.now request.now ++ ending_text ending)) }
    ensures grown { OnOk result (Grows texts.old texts.new) }
    ensures places { OnOk result (All (IsSpelled plan.now texts.new) page.new.places.items) }
{
    let at = usize::from(actor.0);
    if at >= page.places.len() {
        return spell(texts, page, plan, request, ending);
    }
    let last = page.places[at];
    if last.ending == ending && is_repeated(request, &last.request) {
        return Ok(last.number);
    }
    let number = spell(texts, page, plan, request, ending)?;
    if is_asked_of_all(request) {
        page.places[at] = Spelled {
            request: *request,
            ending,
            number,
        };
    }
    Ok(number)
}

fn spell(
    texts: &mut Texts,
    page: &mut Page,
    plan: &Plan,
    request: &Request,
    ending: LineEnding,
) -> Result<u32, NoMemory>
    ensures text { IfOk result (λ number. IsText texts.new number (request_text plan.now request.now ++ ending_text ending)) }
    ensures grown { OnOk result (Grows texts.old texts.new) }
    ensures places { page.new.places ≡ page.old.places }
{
    page.words.clear();
    push_request(&mut page.words, plan, request)?;
    push_ending(&mut page.words, ending)?;
    number_of(texts, page.slots.as_mut_slice(), page.words.as_bytes())
}
