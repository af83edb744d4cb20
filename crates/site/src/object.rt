// What an instance numbers.
ghost use Rattle.std.specs.Prelude.{ℕ, ◌≡◌};
ghost use mathlib.Core.Path.{refl};
ghost use Rattle.model.specs.Numbers.{access_zone, access_point, access_rule, access_credential};
ghost use Rattle.index.specs.Index.{ByInstance};
ghost use Rattle.site.specs.Sought.{by_instance};

use model::numbers::{ACCESS_CREDENTIAL, ACCESS_POINT, ACCESS_RULE, ACCESS_ZONE};
use model::{CredentialId, PointId, RightsId, ZoneId};

// A number of one kind of record: zone 7 is never point 7. Each type has its own impl, since an impl by a macro is refused.
pub trait Object: Copy {
    ghost KIND: { ℕ };

    ghost instance: { Self → ℕ };

    const KIND: u8;

    fn instance(self) -> u32
        ensures { result ≡ instance self };
}

// An object with one record, which is looked up by its instance alone.
pub trait Placed: Object {
    ghost by_instance: { ByInstance Self.KIND };
}

impl Object for ZoneId {
    ghost KIND = { access_zone };

    ghost instance = { λ zone. zone.0 };

    const KIND: u8 = ACCESS_ZONE;

    fn instance(self) -> u32 {
        self.0
    }
}

impl Placed for ZoneId {
    ghost by_instance = { by_instance access_zone refl };
}

impl Object for PointId {
    ghost KIND = { access_point };

    ghost instance = { λ point. point.0 };

    const KIND: u8 = ACCESS_POINT;

    fn instance(self) -> u32 {
        self.0
    }
}

impl Placed for PointId {
    ghost by_instance = { by_instance access_point refl };
}

impl Object for CredentialId {
    ghost KIND = { access_credential };

    ghost instance = { λ credential. credential.0 };

    const KIND: u8 = ACCESS_CREDENTIAL;

    fn instance(self) -> u32 {
        self.0
    }
}

impl Placed for CredentialId {
    ghost by_instance = { by_instance access_credential refl };
}

// A rights number numbers its rules, of which there may be many.
impl Object for RightsId {
    ghost KIND = { access_rule };

    ghost instance = { λ rights. rights.0 };

    const KIND: u8 = ACCESS_RULE;

    fn instance(self) -> u32 {
        self.0
    }
}
