// The roles of those who call (document 02, (xiv)): which acts on a cue book or a cue each of them may do. Every call on a book or a cue asks this crate before any other test.
// It depends on `matching` for the refusal of a number that is no role.
#![tactic(auto)]

ghost use Rattle.std.specs.Prelude.{◌≡◌};
ghost use Rattle.roles.specs.Roles.{may_all, may_retitle, may_resolve, role_by};

use matching::Refusal;

// Who calls. Interfaces pass a role by its number, in this order from 0.
#[derive(Clone, Copy, Debug, PartialEq, Eq)]
pub enum Role {
    Operator,
    Translator,
    Guest,
}

impl TryFrom<u32> for Role {
    type Error = Refusal;

    ghost try_from_gives = { λ number r. r ≡ role_by number };

    fn try_from(number: u32) -> Result<Role, Refusal> {
        match number {
            0 => Ok(Role::Operator),
            1 => Ok(Role::Translator),
            2 => Ok(Role::Guest),
            _ => Err(Refusal::NotAllowed),
        }
    }
}

// Whether a role may do every act: reading a book, a cue or a field, showing a title, writing a cue.
pub fn may_all(role: u32) -> bool
    ensures { result ≡ may_all role }
{
    matches!(Role::try_from(role), Ok(Role::Operator))
}

// Whether a role may have a title replaced.
pub fn may_retitle(role: u32) -> bool
    ensures { result ≡ may_retitle role }
{
    matches!(Role::try_from(role), Ok(Role::Operator | Role::Translator))
}

// Whether a role may have a book resolved.
pub fn may_resolve(role: u32) -> bool
    ensures { result ≡ may_resolve role }
{
    matches!(Role::try_from(role), Ok(Role::Operator | Role::Guest))
}
