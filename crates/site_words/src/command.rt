use hiera_merge::Merge;

/// What the words of a command line ask for. `dir` is the folder that is read in the place of the input.
#[derive(Clone, Copy, Debug)]
pub enum Command<'a> {
    /// The catalog of this node under the manifest that comes in.
    Manifest {
        node: &'a str,
    },

    /// The faults of the manifests.
    Check {
        dir: Option<&'a str>,
    },

    /// The catalog of this node.
    Compile {
        node: &'a str,
        dir: Option<&'a str>,
    },

    /// The history and the replies that come of a bundle whose requests are answered one after another.
    Sequence,

    /// The value that the data have for this key and node, by this merge where one is given.
    Lookup {
        node: &'a str,
        key: &'a str,
        merge: Option<Merge>,
        dir: Option<&'a str>,
    },

    /// A run of this node's catalog on a machine.
    /// With a number of workers, what waits for nothing else goes side by side.
    Apply {
        node: &'a str,
        dir: Option<&'a str>,
        workers: Option<u32>,
    },

    /// What a run of the demo site with this many nodes comes to. There is no input.
    Demo {
        nodes: u32,
    },

    /// The history and the replies that come of a bundle whose requests this many workers share out.
    Batch {
        workers: u32,
    },

    /// A service on this port for so many connections, over the site of this folder.
    Serve {
        port: u16,
        count: u32,
        dir: &'a str,
    },

    /// A service on this port for so many connections, which goes on from the history of the journal that comes in.
    ServeOn {
        port: u16,
        count: u32,
    },

    /// Whether the journal that comes in is that of a legal history.
    Audit,

    /// The journal that comes in, in the version that is written today.
    Migrate,

    /// The history and the replies that come of requests which this many workers share out, over the history of the
    /// journal that comes in.
    Resume {
        workers: u32,
    },

    /// Whether what the nodes of a bundle export settles in so many rounds, in each of which this many workers compile
    /// all of them.
    Settle {
        rounds: u32,
        workers: u32,
    },
}
