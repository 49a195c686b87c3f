// Sessions.
ghost use Rattle.std.specs.Prelude.{◌≡◌, [], None, IfOk, option_map};
ghost use Rattle.sj_session.specs.Counts.{CountsEdit};
ghost use Rattle.sj_session.specs.Sessions.{IsBuiltOption, Edits, ShowTheSame};

use crate::editing::{Edit, linked_edit};
use crate::{EditRefusal, ModuleFile, Options, Report};
use sj_names::{Entries, Folder};
use sj_workers::Workers;
use std::alloc::Global;
use std::marker::Model;

/// A session: what it links by, the folder that it accepted last, and that folder's files.
#[derive(Drop)]
pub struct Session {
    entries: Entries,
    options: Options,
    present: Option<Folder>,
    files: Vec<ModuleFile>,
}

impl Model for Session {
    ghost use Rattle.sj_session.specs.Sessions.{Standing, AreFilesOf};

    ghost Value = { Standing };

    ghost view = { λ s. record { entries = s.entries; options = s.options; present = s.present; files = s.files.items } };

    ghost invariant = { λ s. AreFilesOf s.entries s.options.style s.present s.files.items };
}

impl Session {
    /// A session that has accepted no folder yet. It takes no memory. The condition is that the options are built: bodies aren't
    /// optimised.
    pub fn new(alloc: Global, entries: Entries, options: Options) -> Session
        requires { IsBuiltOption options }
        ensures { result ≡ record { entries = entries; options = options; present = None; files = [] } }
    {
        Session {
            entries,
            options,
            present: None,
            files: Vec::new(alloc),
        }
    }

    /// Judges and links the folder, and takes it with its files where it is accepted.
    ///
    /// `Refused` exactly where the folder's verdict is that refusal. After it, and after `NoMemory`, the session is as before. All is
    /// read, checked and emitted anew by `work`: of a folder that is accepted each file is read once, and each needed body is checked and emitted once; of any
    /// other no more, and nothing is emitted where it is refused.
    pub fn edit<W: Workers>(
        &mut self,
        alloc: Global,
        folder: Folder,
        work: &mut W,
    ) -> Result<Report, EditRefusal>
        ensures edited { Edits self.old folder result self.new }
        ensures counted { CountsEdit self.old.entries folder.files result (W.meter work.old) (W.meter work.new) }
        ensures agrees { IfOk result (λ _. ShowTheSame self.old.entries folder self.new.files) }
    {
        let Edit { files, report } = linked_edit(
            alloc,
            folder.files.as_slice(),
            &self.entries,
            self.options.style,
            work,
        )?;
        self.files = files;
        self.present = Some(folder);
        Ok(report)
    }

    /// The files of the folder that was accepted last; none before the first. It takes no memory.
    pub fn files(&self) -> &[ModuleFile]
        ensures { result.now ≡ self.now.files }
    {
        &self.files
    }

    /// The folder that was accepted last; `None` exactly before the first. It takes no memory.
    pub fn present(&self) -> Option<&Folder>
        ensures { option_map (λ f. f.now) result ≡ self.now.present }
    {
        self.present.as_ref()
    }
}
