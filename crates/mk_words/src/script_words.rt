//! What help says about the lines of a script.

/// What follows the options in the help of `edit`.
pub const EDIT_HELP: &str = "Lines of a script:
  add PATH FIELD             Add FIELD after the last field of the section
  top PATH FIELD             Add FIELD before its first field
  del PATH NAME K            Remove its K-th field NAME
  ren PATH NAME K NEW        Rename its K-th field NAME to NEW
  set PATH NAME K FIELD      Replace its K-th field NAME with FIELD
  put PATH FIELD             Replace all its fields of that name with FIELD, or add FIELD
  put-piece PATH PIECE       Do so with the field in a piece
  drop PATH NAME             Remove all its fields NAME, written with or without a colon
  body PATH PIECE            Replace the body of a leaf with a piece
  content PATH PIECE         Replace the content of a leaf with a piece, encoded
  content --charset NAME PATH PIECE
                             Do so with a text, and name its charset
  encode PATH ENCODING       Encode the content of a leaf as quoted-printable, base64 or 8bit
  replace PATH PIECE         Replace the section with the one in a piece
  insert PATH PLACE PIECE    Insert the section in a piece into a multipart, after PLACE parts
  append PATH PIECE          Insert the section in a piece after the last part, or beside a leaf
  append-text PATH PIECE     Insert a part there with a piece as its content
  attach PATH TYPE NAME PIECE
                             Insert a piece there as a file, encoded
  attach-text PATH TYPE PIECE
                             Insert a piece there as a text to be shown, encoded
  remove PATH ..             Remove parts
  wrap PATH SUBTYPE BOUNDARY Make the section the only part of a multipart
  undo                       Undo the last step
  redo                       Redo the last step that was undone
  begin                      Begin a group, which is made as a whole or not at all
  end                        End the group
PATH is the path of a section, such as 1 or 1.2. PIECE and K are numbers from 1, PLACE is a number from 0.

Examples:
  mimetool edit -e 'add 1 X-Seen: yes' < message > edited
  mimetool edit -j journal script part --in-place message
  mimetool edit --each -e 'drop 1 X-Spam' --in-place mailbox";
