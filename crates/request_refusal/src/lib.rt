// The refusal of a state request: rows 8 and 9 of document 01's table.
#![tactic(auto)]

ghost use Rattle.std.specs.Prelude.{◌≡◌};
ghost use Rattle.rules.specs.Numbers.{number_of};
ghost use Rattle.rules.specs.Refusals.{first_of};
ghost use Rattle.request_refusal.specs.Rows.{request_checks};

use rules::calls::Request;
use rules::refusals::Refusal;
use rules::states::State;

// Kept: request and state as two parameters: a pair of them is matched on here and made for nothing else; so too in `state_request`.
pub fn at_request(q: Request, s: State) -> Option<Refusal>
    ensures { number_of result ≡ first_of (request_checks s q) }
{
    match (q, s) {
        (_, State::Unpowered) => Some(Refusal::WrongPower), // 8 comes before 9
        (Request::Maintenance, State::Dormant) => Some(Refusal::RequestNotAllowed),
        _ => None, // document 02, S-3: from Maintenance to Dormant too
    }
}
