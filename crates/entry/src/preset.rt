//! Presets: places with a name and a setting.
ghost use Rattle.std.specs.Prelude.{◌≡◌, not, ◌==◌};
ghost use Rattle.entry.specs.Settings.{setting_number};

use crate::kind::{Entry, HasPosition, Position};

/// What a preset sets.
#[derive(Clone, Copy)]
pub enum Setting {
    Dial(f32),
    Switch(bool),
    Unset,
}

/// The form's number in answers.
impl From<Setting> for u8 {
    ghost from_gives = { λ setting number. number ≡ setting_number setting };

    fn from(setting: Setting) -> u8 {
        match setting {
            Setting::Dial(_) => 1,
            Setting::Switch(_) => 2,
            Setting::Unset => 3,
        }
    }
}

/// A place with a setting, and a name unless `name` is 0.
#[derive(Clone, Copy)]
pub struct Preset {
    pub x: u16,
    pub y: u16,
    pub name: u64,
    pub setting: Setting,
}

impl HasPosition for Preset {
    type Scalar = u16;

    ghost across = { λ p. p.x };

    ghost along = { λ p. p.y };

    fn position(&self) -> Position<u16> {
        Position {
            x: self.x,
            y: self.y,
        }
    }
}

impl Entry for Preset {
    ghost is_named = { λ p. not (p.name == 0) };

    fn is_named(&self) -> bool {
        self.name != 0
    }
}
