// Platforms of a good shape.
ghost use Rattle.std.specs.Prelude.{◌≡◌};
ghost use Rattle.platform_shape.specs.Shape.{IsShape};

use std::marker::Model;
use tlm_model::Platform;

/// A platform whose routes are sound, which contracts see as the platform: it keeps the limits of the
/// format, each router has a window, each component is named, no router leads back to itself, no path
/// has more than 8 routers, and no two paths lead from an initiator to one component. Its initiators may
/// have every style.
pub struct Shape {
    platform: Platform,
}

// Written out, so that each early return calls it.
impl Drop for Shape {
    fn drop(self) {
        let Shape { platform: _ } = self;
    }
}

impl Model for Shape {
    ghost use Rattle.tlm_model.specs.declared.platform.Platform.{Platform};
    ghost use Rattle.platform_shape.specs.Shape.{IsShape};

    ghost Value = { Platform };

    ghost view = { λ s. s.platform };

    ghost invariant = { λ s. IsShape s.platform };
}

impl Shape {
    /// The shape of a platform that was checked, which is not copied.
    pub(crate) fn of_checked(platform: Platform) -> Shape
        requires { IsShape platform }
        ensures { result ≡ platform }
    {
        Shape { platform }
    }

    /// The platform.
    pub fn platform(&self) -> &Platform
        ensures same { result.now ≡ self.now }
        ensures shape { IsShape self.now }
    {
        &self.platform
    }

    /// The platform, where the shape isn't used any more.
    pub fn into_platform(self) -> Platform
        ensures same { result ≡ self }
        ensures shape { IsShape self }
    {
        let Shape { platform } = self;
        platform
    }
}
