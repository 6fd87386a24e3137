// The method number: it names the engine behind it, and refuses a number that has none. It depends on the engines, of which callers need nothing, and on `matching` for what a
// find gives.
#![tactic(auto)]

ghost use Rattle.matching.specs.Find.{Found};
ghost use Rattle.matching.specs.Results.{finding};
ghost use Rattle.find.specs.Find.{engine_by, Named, Answered};

use matching::{Refusal, Tally};

// An engine. Callers that pass no enum know it by its method number, 0 to 7 in this order.
#[derive(Clone, Copy, Debug, PartialEq, Eq)]
pub enum Method {
    Naive,
    Kmp,
    Horspool,
    Sunday,
    Fjs,
    DoubleWindow,
    BoyerMoore,
    ImprovedFjs,
}

impl TryFrom<u32> for Method {
    type Error = Refusal;

    ghost try_from_gives = { Named };

    fn try_from(number: u32) -> Result<Method, Refusal> {
        match number {
            0 => Ok(Method::Naive),
            1 => Ok(Method::Kmp),
            2 => Ok(Method::Horspool),
            3 => Ok(Method::Sunday),
            4 => Ok(Method::Fjs),
            5 => Ok(Method::DoubleWindow),
            6 => Ok(Method::BoyerMoore),
            7 => Ok(Method::ImprovedFjs),
            _ => Err(Refusal::UnknownMethod),
        }
    }
}

impl Method {
    // Finds the pattern in the text by this engine.
    pub fn find(
        self,
        pattern: &[u8],
        text: &[u8],
        scratch: &mut [u16],
        list: &mut [u32],
    ) -> Result<Tally, Refusal>
        ensures { Found (engine_by self) pattern.now text.now scratch.old list.old (finding result) scratch.new list.new }
    {
        match self {
            Method::Naive => naive::find(pattern, text, scratch, list),
            Method::Kmp => kmp::find(pattern, text, scratch, list),
            Method::Horspool => horspool::find(pattern, text, scratch, list),
            Method::Sunday => sunday::find(pattern, text, scratch, list),
            Method::Fjs => fjs::find(pattern, text, scratch, list),
            Method::DoubleWindow => double_window::find(pattern, text, scratch, list),
            Method::BoyerMoore => boyer_moore::find(pattern, text, scratch, list),
            Method::ImprovedFjs => improved_fjs::find(pattern, text, scratch, list),
        }
    }
}

// Finds the pattern in the text by the engine of a method number, 0 to 7; any other is refused.
pub fn find(
    method: u32,
    pattern: &[u8],
    text: &[u8],
    scratch: &mut [u16],
    list: &mut [u32],
) -> Result<Tally, Refusal>
    ensures { Answered method pattern.now text.now scratch.old list.old (finding result) scratch.new list.new }
{
    Method::try_from(method)?.find(pattern, text, scratch, list)
}
