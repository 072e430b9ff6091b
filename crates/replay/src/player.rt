// What is played: the session, what is lent to its calls, and how far the script and its answers have come.
ghost use Rattle.std.specs.Prelude.{◌≡◌};
ghost use Rattle.script.specs.Kind as Code;
ghost use Rattle.script.specs.Kind.{code_of};
ghost use Rattle.bare_lines.specs.Numbers.{Sound};
ghost use Rattle.replay.specs.Called.{OnShown};
ghost use Rattle.replay.specs.Ready.{Ready, counted};
ghost use Rattle.replay.specs.Played.{pixels, Writes};
ghost use Rattle.replay.specs.Run.{Fresh};

use crate::{calls, hits, lend, looks, sheets, show};
use answer_text::Output;
use bare_lines::numbers::Numbers;
use bare_lines::{geometry, pixels};
use script::Line;
use script::kind::Kind;
use std::io::Stdout;
use std::rt::Files;
use windows::Session;

// `lent` pixels of the store are lent. The other four say how much the next line of their kind is lent, where a line said so: pixels of the screen
// to a redraw or portion, numbers of the list to a visible list, hits or the reader of a sheet, pixels of the target to a look, and bytes to a
// sheet. `lines` lines have been read.
#[derive(Drop)]
pub struct Player {
    pub session: Session,
    pub lent: usize,
    pub screen: Option<usize>,
    pub list: Option<usize>,
    pub target: Option<usize>,
    pub sheet: Option<usize>,
    pub out: Output,
    pub lines: u64,
}

impl Player {
    // Before the first start the session is that of a refused one.
    pub fn fresh(stdout: Stdout) -> Player
        ensures { Fresh result }
    {
        let (session, _) = Session::start(0);
        Player {
            session,
            lent: 16,
            screen: None,
            list: None,
            target: None,
            sheet: None,
            out: Output::new(stdout),
            lines: 0,
        }
    }

    // One more line has been read.
    pub fn count_line(&mut self)
        requires { Ready self.old }
        ensures { Ready self.new × (self.new ≡ counted self.old) }
    {
        if self.lines < 18446744073709551615 {
            self.lines += 1;
        }
    }

    // The lines that change neither the session nor what is lent.
    fn shown<R: Files>(
        &mut self,
        files: &R,
        line: Line,
        ns: &mut Numbers,
        name: &[u8; 64],
        store: &[u32; 6144000],
        screen: &[u32; 3072000],
    )
        requires { Ready self.old × Sound line ns.old × OnShown (code_of line.kind) }
        ensures { Writes line ns.old self.old (pixels store.now screen.now) self.new (pixels store.now screen.now) }
    {
        match line.kind {
            Kind::Pixels => show::pixels(&self.session, ns, store, self.lent, &mut self.out),
            Kind::Screen | Kind::Picture => show::screen(
                files,
                line,
                ns,
                name,
                screen,
                &mut self.out,
            ),
            Kind::Scanline | Kind::FillScanline | Kind::SetScanline | Kind::Region => {
                pixels::pixel_line(line, ns, &mut self.out)
            }
            _ => geometry::rect_line(line.kind, ns, &mut self.out),
        }
    }

    // Plays one line.
    pub fn line<R: Files>(
        &mut self,
        files: &R,
        line: Line,
        ns: &mut Numbers,
        name: &[u8; 64],
        store: &mut [u32; 6144000],
        screen: &mut [u32; 3072000],
        list: &mut [u32; 7812],
    )
        requires { Ready self.old × Sound line ns.old }
        ensures { Writes line ns.old self.old (pixels store.old screen.old) self.new (pixels store.new screen.new) }
    {
        match line.kind {
            Kind::Resize | Kind::Fill | Kind::Blit | Kind::Maximise | Kind::UpdateDims => {
                lend::stored(self, line, ns, store)
            }
            Kind::Redraw | Kind::Portion => lend::redraw(self, line, ns, store, screen),
            Kind::Visible => lend::visible(self, ns, list),
            Kind::Hits => hits::hits(self, line, ns, list),
            Kind::ReadSheet => sheets::read_sheet(self, line, ns, list),
            Kind::Look | Kind::LookFit => looks::look(self, line, ns, store),
            Kind::Screen
            | Kind::Pixels
            | Kind::Picture
            | Kind::Intersect
            | Kind::Pieces
            | Kind::Union
            | Kind::Contains
            | Kind::ContainsRect
            | Kind::Within
            | Kind::Scanline
            | Kind::FillScanline
            | Kind::SetScanline
            | Kind::Region => self.shown(files, line, ns, name, store, screen),
            _ => calls::call(self, line, ns),
        }
    }
}
