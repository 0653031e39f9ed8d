//! The data types by their names.
ghost use Rattle.std.specs.Prelude.{◌≡◌, map};
ghost use Rattle.pp_values.specs.SortText.{name_text};
ghost use Rattle.pp_types.specs.Names.{data_type_named, named_in, name_of};

/// A data type without its arguments.
#[derive(Clone, Copy)]
pub enum DataType {
    Any,
    Undef,
    Default,
    Boolean,
    Integer,
    Numeric,
    String,
    Enum,
    Scalar,
    Data,
    Array,
    Hash,
    Collection,
    Optional,
    Variant,
    NotUndef,
    Tuple,
    Type,
    CatalogEntry,
    Class,
    Resource,
}

pub const DATA_TYPES: [(&str, DataType); 21] = [
    ("Any", DataType::Any),
    ("Undef", DataType::Undef),
    ("Default", DataType::Default),
    ("Boolean", DataType::Boolean),
    ("Integer", DataType::Integer),
    ("Numeric", DataType::Numeric),
    ("String", DataType::String),
    ("Enum", DataType::Enum),
    ("Scalar", DataType::Scalar),
    ("Data", DataType::Data),
    ("Array", DataType::Array),
    ("Hash", DataType::Hash),
    ("Collection", DataType::Collection),
    ("Optional", DataType::Optional),
    ("Variant", DataType::Variant),
    ("NotUndef", DataType::NotUndef),
    ("Tuple", DataType::Tuple),
    ("Type", DataType::Type),
    ("CatalogEntry", DataType::CatalogEntry),
    ("Class", DataType::Class),
    ("Resource", DataType::Resource),
];

impl DataType {
    pub fn name(self) -> &'static str
        ensures { result.now ≡ name_text (name_of self) }
    {
        match self {
            DataType::Any => "Any",
            DataType::Undef => "Undef",
            DataType::Default => "Default",
            DataType::Boolean => "Boolean",
            DataType::Integer => "Integer",
            DataType::Numeric => "Numeric",
            DataType::String => "String",
            DataType::Enum => "Enum",
            DataType::Scalar => "Scalar",
            DataType::Data => "Data",
            DataType::Array => "Array",
            DataType::Hash => "Hash",
            DataType::Collection => "Collection",
            DataType::Optional => "Optional",
            DataType::Variant => "Variant",
            DataType::NotUndef => "NotUndef",
            DataType::Tuple => "Tuple",
            DataType::Type => "Type",
            DataType::CatalogEntry => "CatalogEntry",
            DataType::Class => "Class",
            DataType::Resource => "Resource",
        }
    }
}

/// The data type that is spelled exactly so.
#[tactic(auto, unfolding(crate::specs::Names::data_type_named))]
pub fn data_type_named(name: &str) -> Option<DataType>
    ensures { result ≡ data_type_named name.now }
{
    named_in(&DATA_TYPES, name)
}

fn named_in(mut table: &[(&str, DataType)], name: &str) -> Option<DataType>
    ensures { result ≡ named_in (map (λ w. (w.0.now, w.1)) table.entry.now) name.now }
{
    while let [word, rest @ ..] = table {
        if name == word.0 {
            return Some(word.1);
        }
        table = rest;
    }
    None
}
