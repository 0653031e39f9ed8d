//! Sites, and how they are read: of a bundle, the document of a site and what is asked of it, and of a folder.
#![tactic(auto)]

mod bundle;
mod bundle_stop;
mod document;
mod files;
mod folder;
mod gathered;
mod kept_files;
mod limits;
mod listed_nodes;
mod machines;
mod manifest;
mod manifest_texts;
mod nodes;
mod parsing;
mod reading;
mod refusing;
mod requests;
mod sent_facts;
mod site;
mod site_files;
mod site_templates;
mod stop_lines;
mod walking;

pub use bundle::Bundle;
pub use bundle_stop::BundleStop;
pub use folder::read_site;
pub use limits::{MOST_BUNDLE_BYTES, MOST_FILE_BYTES, MOST_REQUESTS};
pub use listed_nodes::ListedNodes;
pub use reading::{read_bundle, read_request_list, read_site_text};
pub use sent_facts::given_facts;
pub use site::{Site, data_of, file_text, make_site, site_of_main, templates_of};
pub use site_files::SiteFiles;
pub use stop_lines::stop_text;
