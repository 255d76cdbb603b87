//! The jobs by name.

/// What users wait for.
#[derive(Clone, Copy)]
pub enum Job {
    /// A site's pages, each turned into HTML.
    Pages,
    /// Long texts, each turned into HTML.
    Books,
    /// What a process does that turns one file into HTML, with a file of entities and a prelude.
    Folder,
    /// Texts opened in a preview, and a writer's keys.
    Typing,
    /// Keys in one long block, and labels that many blocks name.
    LongBlocks,
    /// Texts that are made to be slow.
    Hostile,
    /// Lines put in, taken out, indented, moved, pasted and undone.
    Rework,
}

pub static ALL: &[Job] = &[
    Job::Pages,
    Job::Books,
    Job::Folder,
    Job::Typing,
    Job::LongBlocks,
    Job::Hostile,
    Job::Rework,
];

impl Job {
    /// Its name on the command line.
    pub fn name(self) -> &'static str {
        match self {
            Job::Pages => "pages",
            Job::Books => "books",
            Job::Folder => "folder",
            Job::Typing => "typing",
            Job::LongBlocks => "long_blocks",
            Job::Hostile => "hostile",
            Job::Rework => "rework",
        }
    }

    /// How many inputs reach each kind that it has.
    pub fn kinds(self) -> u64 {
        match self {
            Job::Pages => 40,
            Job::Books => 4,
            Job::Folder => 4,
            Job::Typing => 8,
            Job::LongBlocks => 12,
            Job::Hostile => 10,
            Job::Rework => 5,
        }
    }
}
