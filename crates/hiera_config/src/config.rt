use crate::template::{Template, Templates};
use pp_values::Text;
use sqlite_items::Items;

/// Whose configuration it is.
#[derive(Debug, Drop)]
pub enum Layer {
    Global,
    Environment,
    /// The module of this name.
    Module(Text),
}

/// The data files of a level, before interpolation.
#[derive(Drop)]
pub enum LevelPaths {
    Templates(Templates),
    /// One file for each member of the variable's value, which has the name in the template.
    Mapped {
        variable: Text,
        name: Text,
        template: Template,
    },
}

/// One level of a hierarchy. `folder` is its folder of data, its own or else the default one, before interpolation.
pub struct Level {
    pub name: Text,
    pub folder: Template,
    pub paths: LevelPaths,
}

// By hand, so that callers drop a level by one call.
impl Drop for Level {
    fn drop(self) {
        let Level {
            name: _name,
            folder: _folder,
            paths: _paths,
        } = self;
    }
}

/// Levels in their order, the highest first.
pub type Levels = Items<Level>;

/// A configuration. `default_levels` stand in for a module's own where no source has the key.
pub struct Config {
    pub levels: Levels,
    pub default_levels: Levels,
}

// By hand, so that callers drop a configuration by one call.
impl Drop for Config {
    fn drop(self) {
        let Config {
            levels: _levels,
            default_levels: _default_levels,
        } = self;
    }
}
