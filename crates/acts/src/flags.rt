// The flags in a standing. The contracts cite `specs/Given.antt`.
ghost use Rattle.std.specs.Prelude.{◌≡◌};
ghost use Rattle.acts.specs.Given.{is_dead, is_shut};

use crate::Standing;

// Whether the session is dead.
pub fn is_dead(standing: Standing) -> bool
    ensures { result ≡ is_dead standing }
{
    match standing {
        Standing::OpenedDead => true,
        Standing::Live => false,
        Standing::Dead(_) => true,
    }
}

// Whether the session opened dead.
pub fn is_shut(standing: Standing) -> bool
    ensures { result ≡ is_shut standing }
{
    match standing {
        Standing::OpenedDead => true,
        Standing::Live => false,
        Standing::Dead(_) => false,
    }
}
