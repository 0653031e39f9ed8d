//! The table of the native types.
ghost use Rattle.std.specs.Prelude.{◌≡◌};
ghost use Rattle.res_core.specs.NativeTypes.{row};
ghost use Rattle.res_core.specs.NativeRows.{row_seen};

use crate::native_type::NativeType;

/// What the table says of a native type.
pub struct NativeRow {
    /// The kind, as a resource is named by it.
    pub kind: &'static str,
    /// The name attribute: the title stands for it where it isn't set.
    pub namevar: &'static str,
    /// What the machine records of such a resource, in the order in which it is looked at.
    pub properties: &'static [&'static str],
    /// What may be set besides the properties and the metaparameters.
    pub others: &'static [&'static str],
}

pub const NATIVE_TYPES: [NativeType; 9] = [
    NativeType::File,
    NativeType::Package,
    NativeType::Service,
    NativeType::User,
    NativeType::Group,
    NativeType::Host,
    NativeType::Cron,
    NativeType::Exec,
    NativeType::Notify,
];

pub const FILE: NativeRow = NativeRow {
    kind: "file",
    namevar: "path",
    properties: &["ensure", "content", "target", "owner", "group", "mode"],
    others: &[
        "path", "source", "recurse", "purge", "force", "backup", "replace",
    ],
};

pub const PACKAGE: NativeRow = NativeRow {
    kind: "package",
    namevar: "name",
    properties: &["ensure"],
    others: &["name", "provider", "source", "install_options"],
};

pub const SERVICE: NativeRow = NativeRow {
    kind: "service",
    namevar: "name",
    properties: &["ensure", "enable"],
    others: &["name", "provider", "hasstatus", "hasrestart", "restart"],
};

pub const USER: NativeRow = NativeRow {
    kind: "user",
    namevar: "name",
    properties: &["ensure", "uid", "gid", "home", "shell", "comment", "groups"],
    others: &["name", "managehome", "system"],
};

pub const GROUP: NativeRow = NativeRow {
    kind: "group",
    namevar: "name",
    properties: &["ensure", "gid"],
    others: &["name", "system"],
};

pub const HOST: NativeRow = NativeRow {
    kind: "host",
    namevar: "name",
    properties: &["ensure", "ip", "host_aliases", "comment", "target"],
    others: &["name"],
};

pub const CRON: NativeRow = NativeRow {
    kind: "cron",
    namevar: "name",
    properties: &[
        "ensure", "command", "user", "hour", "minute", "month", "monthday", "weekday",
    ],
    others: &["name"],
};

pub const EXEC: NativeRow = NativeRow {
    kind: "exec",
    namevar: "command",
    properties: &[],
    others: &[
        "command",
        "path",
        "cwd",
        "user",
        "environment",
        "refreshonly",
        "creates",
        "returns",
        "timeout",
    ],
};

pub const NOTIFY: NativeRow = NativeRow {
    kind: "notify",
    namevar: "name",
    properties: &[],
    others: &["name", "message"],
};

impl NativeType {
    /// The type's row.
    pub fn row(self) -> &'static NativeRow
        ensures { row_seen result.now ≡ row self }
    {
        match self {
            NativeType::File => &FILE,
            NativeType::Package => &PACKAGE,
            NativeType::Service => &SERVICE,
            NativeType::User => &USER,
            NativeType::Group => &GROUP,
            NativeType::Host => &HOST,
            NativeType::Cron => &CRON,
            NativeType::Exec => &EXEC,
            NativeType::Notify => &NOTIFY,
        }
    }
}
