//! What the documents of a set say: their modules, templates and sections (docs/PROFILE.md, sections 2, 8 and 9).

use asn1_syntax::module::Module;
use extra_syntax::section::Section;
use gdmo_classes::template::ClassTemplate;
use gdmo_members::member::MemberTemplate;

/// What 1 to 64 documents say. Each part has the number of its document, counted from 1; that of a template in line
/// isn't looked at, since it stands in the document of the template round it. Modules, and sections, stand in the
/// order of the documents, and in each in the order of their places.
#[derive(Drop)]
pub struct Parsed {
    /// The modules.
    pub modules: Vec<Module>,
    /// The templates of managed object classes, packages and name bindings that don't stand in line.
    pub classes: Vec<ClassTemplate>,
    /// The templates of the other six kinds that don't stand in line.
    pub members: Vec<MemberTemplate>,
    /// The sections RULES and INSTANCES.
    pub sections: Vec<Section>,
}
