/// A kind of resource that is built in: no definition in a manifest makes it, and the machine itself sets it right.
#[derive(Clone, Copy, Debug, PartialEq, Eq)]
pub enum NativeType {
    File,
    Package,
    Service,
    User,
    Group,
    Host,
    Cron,
    Exec,
    Notify,
}
