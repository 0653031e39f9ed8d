use crate::site::Site;
use agent_machine::MachineDoc;
use res_core::Requests;

/// A site, what is asked of it, and what is recorded of the machine that it is applied to.
#[derive(Drop)]
pub struct Bundle {
    pub site: Site,
    pub requests: Requests,
    pub machine: MachineDoc,
}
