//! `Weak`: what one of a realm's weak handles is used for, and which of them are meant. It knows no realm.
ghost use Rattle.std.specs.Prelude.{◌≡◌};
ghost use Rattle.tide_weakref.specs.Roles.{held_of, is_chosen};

/// What is wanted of a weak handle's target.
#[derive(Clone, Copy)]
pub enum Role {
    /// A reference leads to it.
    Reference,
    /// Once it is gone, `held` is delivered. `token` is what the registration is taken back by.
    Registration { held: u32, token: u32 },
}

/// A weak handle in use.
#[derive(Clone, Copy)]
pub struct Weak {
    /// Which of the realm's weak handles, counted from 0.
    pub at: u16,
    /// The cell that it was set to.
    pub target: u32,
    pub role: Role,
}

/// Which weak handles in use are meant.
#[derive(Clone, Copy)]
pub enum Chosen {
    /// The one of this number.
    Number(u32),
    /// Those of the registrations with this token.
    Token(u32),
}

/// Whether a weak handle is meant.
pub(crate) fn is_chosen(one: &Weak, chosen: Chosen) -> bool
    ensures { result ≡ is_chosen chosen one.now }
{
    match (chosen, one.role) {
        (Chosen::Number(number), _) => u32::from(one.at) == number,
        (
            Chosen::Token(token),
            Role::Registration {
                held: _,
                token: own,
            },
        ) => own == token,
        (Chosen::Token(_), Role::Reference) => false,
    }
}

/// The value that is delivered once the target is gone, of a registration.
pub(crate) fn held_of(role: Role) -> Option<u32>
    ensures { result ≡ held_of role }
{
    match role {
        Role::Reference => None,
        Role::Registration { held, token: _ } => Some(held),
    }
}
