// A name that a refusal carries.
ghost use Rattle.std.specs.Prelude.{◌≡◌, []};
ghost use Rattle.names.specs.Names.{IsStored, stored};

use names::Name;

// In its stored form: a place could hold it, and zeros stand after it.
#[derive(Clone, Copy)]
pub struct TenantName {
    pub name: Name,
    pub ghost stored: { IsStored name },
}

// The empty name: 13 of a snapshot's version is of no row.
pub fn no_tenant() -> TenantName
    ensures { result.name ≡ stored [] }
{
    TenantName {
        name: Name {
            length: 0,
            bytes: [0; rules::LONGEST_NAME],
        },
    }
}
